// Which variables a path may pass, and the entries of the clauses tied in chains, one for each variable. Row v of `first` is the head of the chain of
// v; k + 1 stands for entry k, and 0 ends it. The row of an entry in `next` packs two numbers: what comes after it on the chain, and its owner, which
// is the number of its clause plus one. An entry of a clause that is always true has no owner and is on no chain.

ghost use Rattle.std.specs.Prelude.{ℕ, ◌≤◌, ◌≡◌, false, length, get_or};
ghost use Rattle.terms.specs.Limits.{most_variables, clause_entries};
ghost use Rattle.terms.specs.InnerLimits.{variable_rows};
ghost use Rattle.forest_tables.specs.InnerTabled.{tabled};
ghost use Rattle.path_explain.specs.InnerTies.{Cleared, FlagsDeeper, Laid, Tied};

use forest_tables::rows::is_deeper;
use formula::clauses::variable_at;
use terms::Variable;
use terms::pairs::pack;

// Flags the existentials deeper than x.
pub fn flag_deeper(n: u32, levels: &[u32], universals: &[bool], x: Variable, flags: &mut [bool])
    requires room { (n ≤ most_variables) × (length flags.old ≡ variable_rows) × ((v : ℕ) → get_or flags.old v false ≡ false) }
    ensures flagged { FlagsDeeper (tabled n levels.now universals.now) x.0 flags.new }
{
    for v in 1..=n {
        flags[v as usize] = is_deeper(n, levels, universals, x, Variable::new(v));
    }
}

// Ties every entry of a clause that is not always true into the chain of its variable.
pub fn tie(clauses: &[i32], begins: &[u16], first: &mut [u32], next: &mut [u32])
    requires laid { Laid clauses.now begins.now × Cleared first.old variable_rows × Cleared next.old clause_entries }
    ensures tied { Tied clauses.now first.new next.new }
{
    let mut number: usize = 0;
    for i in 0..clauses.len() {
        let variable = variable_at(clauses, i);
        if variable.0 == 0 {
            number += 1;
        } else if begins[number] != 0 {
            let at = variable.0 as usize;
            next[i] = pack(first[at], (number + 1) as u32);
            first[at] = (i + 1) as u32;
        }
    }
}
