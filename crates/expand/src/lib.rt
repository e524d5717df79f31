// Expansion: the formula with one universal removed, in which the existentials that depend on it have a copy each.

#![tactic(auto)]

mod blocks;
mod members;

ghost use Rattle.std.specs.Prelude.{ℕ, ◌≡◌, length};
ghost use Rattle.formula.specs.Lent.{formula_of, formula_in};
ghost use Rattle.formula.specs.InnerLevels.{SoundPrefix};
ghost use Rattle.formula.specs.InnerLookup.{SoundClauses};
ghost use Rattle.expand_clauses.specs.InnerCopies.{expanded_prefix, expanded_clauses};
ghost use Rattle.expand_clauses.specs.InnerCopied.{tabled, Copies};
ghost use Rattle.expand.specs.Promise.{result_in, result_out, SetOf, ExpandsBy, Expands};
ghost use Rattle.expand.specs.InnerOrders.{result_order, behind_expand};
ghost use Rattle.expand.specs.InnerWriting.{UniversalLevel, expanded_with, Fits};

use blocks::lay;
use expand_clauses::literals::copy_clauses;
use expand_clauses::numbers::number;
use forest_tables::rows::{level_at, universal_at};
use formula_levels::fill_levels;
use formula_rules::take_formula;
use members::find;
use terms::{Counts, Fault, Level, Literal, Refusal, Variable};

// Writes the formula with the universal x expanded, its prefix read by a rule: the standard set of x is found from the clauses and gets copies
// numbered from n + 1.
pub fn expand(
    rule: u32,
    n: u32,
    prefix: &[u32],
    clauses: &[i32],
    x: Variable,
    out_prefix: &mut [u32],
    out_clauses: &mut [i32],
) -> Result<Counts, Refusal>
    ensures expanded { Expands rule (formula_in n prefix clauses) x.0
        (result_in out_prefix out_clauses) (result_out out_prefix out_clauses) result }
{
    let mut joined = [0u32; Level::JOINED];
    let read = take_formula(rule, n, prefix, clauses, &mut joined)?;
    sound_expand(n, read, clauses, x, out_prefix, out_clauses)
}

// Expands x in an accepted formula, if it is universal: its set is found first.
fn sound_expand(
    n: u32,
    prefix: &[u32],
    clauses: &[i32],
    x: Variable,
    out_prefix: &mut [u32],
    out_clauses: &mut [i32],
) -> Result<Counts, Refusal>
    requires sound { SoundPrefix n prefix.now × SoundClauses clauses.now }
    ensures expanded { ExpandsBy (behind_expand (formula_in n prefix clauses) x.0 (result_in out_prefix out_clauses))
        (formula_in n prefix clauses) x.0 (result_in out_prefix out_clauses) (result_out out_prefix out_clauses) result }
{
    let Some(level) = universal_level(n, prefix, x) else {
        return Err(Refusal(Fault::NotAskable, 0));
    };
    let mut members = [0u32; Variable::ROWS];
    let size = find(n, prefix, clauses, x, level, &mut members);
    expand_set(
        n,
        prefix,
        clauses,
        x,
        &members[0..size],
        out_prefix,
        out_clauses,
    )
}

// The level of a variable, where it is universal, by tables that are gone before the set is searched for: both at a time would take a fifth more of the stack.
fn universal_level(n: u32, prefix: &[u32], x: Variable) -> Option<Level>
    requires sound { SoundPrefix n prefix.now }
    ensures found { UniversalLevel n prefix.now x.0 result }
{
    let mut levels = [0u32; Variable::ROWS];
    let mut universals = [false; Variable::ROWS];
    fill_levels(prefix, &mut levels, &mut universals);
    if !universal_at(n, &universals, x) {
        return None;
    }
    Some(level_at(&levels, x))
}

// Expands x by the list of its set: each member gets a copy, if the result has no more variables than a formula may have.
fn expand_set(
    n: u32,
    prefix: &[u32],
    clauses: &[i32],
    x: Variable,
    members: &[u32],
    out_prefix: &mut [u32],
    out_clauses: &mut [i32],
) -> Result<Counts, Refusal>
    requires sound { SoundPrefix n prefix.now × SoundClauses clauses.now }
    requires set { SetOf (formula_of n prefix.now clauses.now) x.0 members.now }
    ensures expanded { ExpandsBy (result_order (formula_in n prefix clauses) x.0 (result_in out_prefix out_clauses))
        (formula_in n prefix clauses) x.0 (result_in out_prefix out_clauses) (result_out out_prefix out_clauses) result }
{
    let count = n + members.len() as u32;
    if Variable::MOST < count {
        return Err(Refusal(Fault::TooManyVariables, 0));
    }
    let mut copies = [0u32; Variable::ROWS];
    number(n, members, &mut copies);
    fill(count, prefix, clauses, x, &copies, out_prefix, out_clauses)
}

// Fills both tables by the copies, if the result is within the limits and there is room for it.
fn fill(
    count: u32,
    prefix: &[u32],
    clauses: &[i32],
    x: Variable,
    copies: &[u32],
    out_prefix: &mut [u32],
    out_clauses: &mut [i32],
) -> Result<Counts, Refusal>
    requires sound { ((n : ℕ) × SoundPrefix n prefix.now) × SoundClauses clauses.now × Copies copies.now }
    ensures fits { Fits (expanded_with count x.0 (tabled copies.now) (formula_in count prefix clauses))
        (result_in out_prefix out_clauses) (result_out out_prefix out_clauses) result }
{
    let entries = prefix_entries(prefix, x, copies);
    if Level::ENTRIES < entries {
        return Err(Refusal(Fault::TooManyEntries, 0));
    }
    let literals = clause_entries(clauses, x, copies);
    if Literal::ENTRIES < literals {
        return Err(Refusal(Fault::TooManyEntries, 0));
    }
    if out_prefix.len() < entries {
        return Err(Refusal(Fault::TooLittleRoom, 0));
    }
    if out_clauses.len() < literals {
        return Err(Refusal(Fault::TooLittleRoom, 0));
    }
    lay(prefix, x, copies, out_prefix);
    copy_clauses(clauses, x, copies, out_clauses);
    Ok(Counts {
        n: count,
        prefix: entries,
        clauses: literals,
    })
}

// How many entries the prefix of the result has. `lay` counts all of them, and stores only as many as fit into a table of one row.
fn prefix_entries(prefix: &[u32], x: Variable, copies: &[u32]) -> usize
    requires sound { (n : ℕ) × SoundPrefix n prefix.now }
    ensures counted { result ≡ length (expanded_prefix x.0 (tabled copies.now) prefix.now) }
{
    let mut unseen = [0u32; 1];
    lay(prefix, x, copies, &mut unseen)
}

// How many entries the clause table of the result has, counted in the same way by `copy_clauses`.
fn clause_entries(clauses: &[i32], x: Variable, copies: &[u32]) -> usize
    requires sound { SoundClauses clauses.now × Copies copies.now }
    ensures counted { result ≡ length (expanded_clauses x.0 (tabled copies.now) clauses.now) }
{
    let mut unseen = [0i32; 1];
    copy_clauses(clauses, x, copies, &mut unseen)
}
