// The call for C that expands a universal, under a reading rule.

ghost use Rattle.formula.specs.Lent.{formula_in};
ghost use Rattle.snowcoddle.specs.Promises.{ExpandTold};

use c_answers::formulas::lay_counts;
use terms::Variable;

// Expand: the formula with the universal x removed, its variable count, and the counts of the entries of both its tables.
pub fn snow_expand(
    rule: u32,
    n: u32,
    prefix: &[u32],
    clauses: &[i32],
    x: u32,
    out_n: &mut u32,
    out_prefix: &mut [u32],
    prefix_count: &mut u32,
    out_clauses: &mut [i32],
    clauses_count: &mut u32,
    place: &mut u32,
) -> u32
    ensures told { ExpandTold rule (formula_in n prefix clauses) x out_n out_prefix prefix_count out_clauses clauses_count place result }
{
    let answer = expand::expand(
        rule,
        n,
        prefix,
        clauses,
        Variable(x),
        out_prefix,
        out_clauses,
    );
    lay_counts(answer, out_n, prefix_count, clauses_count, place)
}
