// The table of lists judged by an accepted prefix: it is scanned once from the left, list by list, for 25, 26 and 11.

ghost use Rattle.std.specs.Prelude.{ℕ, ◌≤◌, ◌≡◌, false, [], ◌∷◌, length, get_or};
ghost use Rattle.terms.specs.Limits.{most_variables};
ghost use Rattle.terms.specs.InnerLimits.{variable_rows};
ghost use Rattle.terms.specs.Refusals.{Judged};
ghost use Rattle.formula.specs.InnerLevels.{SoundPrefix};
ghost use Rattle.forest_tables.specs.InnerTabled.{universal_in};
ghost use Rattle.forest_tables.specs.Formula.{universal};
ghost use Rattle.forest_tables.specs.InnerRows.{Tells};
ghost use Rattle.dqbf_lists.specs.Lists.{list_entries};
ghost use Rattle.dqbf_lists.specs.Causes.{ListCause};
ghost use Rattle.dqbf_lists.specs.Inner.{Places, MayOpen, MayFollow, Passes};

use forest_tables::rows::universal_at;
use formula_levels::fill_levels;
use terms::{Fault, Refusal, Variable};

// The first refusal of the lists, by an accepted prefix, whose level table is made here.
pub fn lists_verdict(n: u32, prefix: &[u32], lists: &[u32]) -> Result<(), Refusal>
    requires sound { SoundPrefix n prefix.now }
    requires short { length lists.now ≤ list_entries }
    ensures judged { Judged (ListCause n prefix.now lists.now ∷ []) result }
{
    let mut levels = [0u32; Variable::ROWS];
    let mut universals = [false; Variable::ROWS];
    fill_levels(prefix, &mut levels, &mut universals);
    check_lists(n, prefix, &universals, lists)
}

// The first cause of a refusal in the table of lists, one list after another. `placed` flags the variables that a block or a list before has. `last` has,
// for each universal, the place behind its last entry: if that is past the beginning of the open list, the list has the universal already.
pub fn check_lists(
    n: u32,
    prefix: &[u32],
    universals: &[bool],
    lists: &[u32],
) -> Result<(), Refusal>
    requires sound { SoundPrefix n prefix.now }
    requires short { length lists.now ≤ list_entries }
    requires universals { (v : ℕ) → universal_in n universals.now v ≡ universal n prefix.now v }
    ensures judged { Judged (ListCause n prefix.now lists.now ∷ []) result }
{
    let mut placed = [false; Variable::ROWS];
    place_blocks(prefix, &mut placed);
    let mut last = [0u32; Variable::ROWS];
    let mut i = 0;
    // A list at a time: where its universals end says where the next one begins.
    while i < lists.len() {
        let entry = lists[i];
        if !may_open(n, &placed, entry) {
            return Err(Refusal(Fault::MisplacedExistential, i));
        }
        placed[entry as usize] = true;
        let end = pass_universals(n, universals, lists, i + 1, &mut last);
        if lists.len() <= end {
            return Err(Refusal(Fault::UnclosedClause, end));
        }
        if lists[end] != 0 {
            return Err(Refusal(Fault::MisplacedUniversal, end));
        }
        i = end + 1;
    }
    Ok(())
}

// Flags every variable that a block names.
fn place_blocks(prefix: &[u32], placed: &mut [bool])
    requires sound { (n : ℕ) × SoundPrefix n prefix.now }
    requires rows { length placed.old ≡ variable_rows }
    requires blank { (v : ℕ) → get_or placed.old v false ≡ false }
    ensures placed { Places prefix.now placed.new }
{
    let mut opens = true;
    for &entry in prefix {
        if opens {
            opens = false;
        } else if entry == 0 {
            opens = true;
        } else {
            placed[entry as usize] = true;
        }
    }
}

// Whether an entry may open a list: a variable of the formula that is not placed yet.
fn may_open(n: u32, placed: &[bool], entry: u32) -> bool
    requires few { n ≤ most_variables }
    requires rows { length placed.now ≡ variable_rows }
    ensures told { Tells result (MayOpen n placed.now entry) }
{
    entry != 0 && entry <= n && !placed[entry as usize]
}

// Passes the universals of a list from `start` on, as far as nothing is wrong with them, and gives the place behind the last: the 0 that closes the list,
// which is no universal, an entry with which something is wrong, or the end of the table.
fn pass_universals(
    n: u32,
    universals: &[bool],
    lists: &[u32],
    start: usize,
    last: &mut [u32],
) -> usize
    requires few { n ≤ most_variables }
    requires short { length lists.now ≤ list_entries }
    requires rows { length last.old ≡ variable_rows }
    requires within { start ≤ length lists.now }
    ensures passes { Passes n universals.now lists.now start last.old last.new result }
{
    for i in start..lists.len() {
        let entry = lists[i];
        if !may_follow(n, universals, last, start as u32, entry) {
            return i;
        }
        last[entry as usize] = i as u32 + 1;
    }
    lists.len()
}

// Whether an entry may follow in the list whose first universal stands at `start`: a universal that the list does not have yet.
fn may_follow(n: u32, universals: &[bool], last: &[u32], start: u32, entry: u32) -> bool
    requires few { n ≤ most_variables }
    requires rows { length last.now ≡ variable_rows }
    ensures told { Tells result (MayFollow n universals.now last.now start entry) }
{
    universal_at(n, universals, Variable::new(entry)) && last[entry as usize] <= start
}
