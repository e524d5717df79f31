// The counts of a forest (rule 4.1): for each class name the number of variables in its class and in all classes below it, 0 elsewhere. Each variable
// is counted in its class. Then each class passes its count up to its parent, in the order of the prefix from its end, so that a class has the counts
// of all classes below it before it passes its own.

ghost use Rattle.std.specs.Prelude.{ℕ, ◌≤◌, ◌<◌, ◌≡◌, List, length, get_or};
ghost use Rattle.terms.specs.Limits.{most_variables};
ghost use Rattle.terms.specs.InnerLimits.{variable_rows};
ghost use Rattle.formula.specs.Tables.{VariableAt};
ghost use Rattle.formula.specs.InnerLevels.{SoundPrefix};
ghost use Rattle.forest_theory.specs.Tables.{row};
ghost use Rattle.forest_tables.specs.InnerRows.{Tells};
ghost use Rattle.forest_tables.specs.InnerCounting.{FormedBy, ForClasses, MembersTo, passed_up, CountsOf, PassesUp};

use crate::rows::row_of;
use terms::{Counts, Variable};

// Fills a table, which is 0 throughout, with the counts of well-formed rows.
pub fn fill_counts(n: u32, prefix: &[u32], classes: &[u32], parents: &[u32], counts: &mut [u16])
    requires ready { SoundPrefix n prefix.now × FormedBy n prefix.now classes.now parents.now
        × (length counts.old ≡ variable_rows) × ((v : ℕ) → get_or counts.old v 0 ≡ 0) }
    ensures counted { CountsOf n prefix.now classes.now parents.now counts.new }
{
    count_members(n, classes, counts);
    pass_all_up(n, prefix, parents, counts);
}

// Counts each variable in its class.
fn count_members(n: u32, classes: &[u32], counts: &mut [u16])
    requires few { n ≤ most_variables }
    requires size { length counts.old ≡ variable_rows }
    requires zeros { (v : ℕ) → get_or counts.old v 0 ≡ 0 }
    requires formed { (es : List ℕ) × (parents : List ℕ) × FormedBy n es classes.now parents }
    ensures members { ForClasses n classes.now (λ es parents. MembersTo n es classes.now parents n counts.new) }
{
    for v in 1..=n {
        let class = row_of(n, classes, Variable::new(v));
        if class.0 != 0 {
            counts[class.0 as usize] += 1;
        }
    }
}

// Passes the count of each class up to its parent, the deepest first.
fn pass_all_up(n: u32, prefix: &[u32], parents: &[u32], counts: &mut [u16])
    requires sound { SoundPrefix n prefix.now }
    requires members { (classes : List ℕ) × FormedBy n prefix.now classes parents.now
        × MembersTo n prefix.now classes parents.now n counts.old }
    ensures counted { PassesUp n prefix.now parents.now counts.old counts.new }
{
    for i in (0..prefix.len()).rev() {
        if names_at(prefix, i) {
            pass_up(n, Variable::new(prefix[i]), parents, counts);
        }
    }
}

// Whether an entry of a prefix names a variable: it is no 0, and neither is the one before it.
fn names_at(prefix: &[u32], i: usize) -> bool
    requires within { i < length prefix.now }
    ensures tells { Tells result (VariableAt prefix.now i) }
{
    if prefix[i] == 0 {
        return false;
    }
    if i == 0 {
        return false;
    }
    if prefix[i - 1] == 0 {
        return false;
    }
    true
}

// Passes the count of w up to its parent, if it has one.
fn pass_up(n: u32, w: Variable, parents: &[u32], counts: &mut [u16])
    requires own { w.0 < length counts.old }
    requires parent { row n parents.now w.0 < length counts.old }
    requires small { (v : ℕ) → get_or counts.old v 0 ≤ most_variables }
    ensures passed { counts.new ≡ passed_up (row n parents.now w.0) w.0 counts.old }
{
    let parent = row_of(n, parents, w);
    if parent.0 == 0 {
        return;
    }
    let at = parent.0 as usize;
    counts[at] = counts[at] + counts[w.0 as usize];
}
