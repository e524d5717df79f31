// The set of a universal x by dependency lists, under a reading rule: which existentials depend on it, where some of them have a list of the universals that
// they may depend on. No forest is lent: what may be stepped on from x is put into classes, clause by clause.

#![tactic(auto)]

mod classing;
mod opening;

ghost use Rattle.std.specs.Prelude.{◌≤◌, length};
ghost use Rattle.formula.specs.Lent.{formula_in};
ghost use Rattle.formula.specs.InnerLevels.{SoundPrefix};
ghost use Rattle.formula.specs.InnerLookup.{SoundClauses};
ghost use Rattle.dqbf_lists.specs.Lists.{list_entries};
ghost use Rattle.dqbf_sets.specs.Answers.{SetByLists};
ghost use Rattle.dqbf_sets.specs.Inner.{SetBehind};

use classing::class_rows;
use dqbf_lists::reading::take_listed;
use forest_entries::flag_entries;
use forest_members::{Asked, list_picked};
use opening::open_rows;
use terms::{Level, Refusal, Scheme, Variable};

// The set of x by a scheme and by the lists, with the prefix read by a rule, written ascending into `out`, with the count of its members.
pub fn set_of(
    rule: u32,
    scheme: Scheme,
    n: u32,
    prefix: &[u32],
    clauses: &[i32],
    lists: &[u32],
    x: Variable,
    out: &mut [u32],
) -> Result<u32, Refusal>
    ensures listed { SetByLists rule scheme (formula_in n prefix clauses) lists.now x.0 out.old out.new result }
{
    let mut joined = [0u32; Level::JOINED];
    let read = take_listed(rule, n, prefix, clauses, lists.len(), &mut joined)?;
    sound_set(scheme, n, read, clauses, lists, x, out)
}

// The set of x, of an accepted formula: what may be stepped on from x is put into classes, those that share a clause with x are flagged by the scheme, and
// the members of flagged classes are listed.
fn sound_set(
    scheme: Scheme,
    n: u32,
    prefix: &[u32],
    clauses: &[i32],
    lists: &[u32],
    x: Variable,
    out: &mut [u32],
) -> Result<u32, Refusal>
    requires sound { SoundPrefix n prefix.now × SoundClauses clauses.now }
    requires short { length lists.now ≤ list_entries }
    ensures listed { SetBehind scheme (formula_in n prefix clauses) lists.now x.0 out.old out.new result }
{
    let mut rows = [0u32; Variable::ROWS];
    open_rows(n, prefix, lists, x, &mut rows)?;
    let mut flags = [false; Variable::ROWS];
    class_rows(n, clauses, &mut rows);
    flag_entries(scheme, n, clauses, x, &mut rows, &mut flags);
    list_picked(n, Asked::Set, &flags, &rows, out)
}
