// The call for C that lists the resolution-path set of a universal, under a reading rule.

ghost use Rattle.formula.specs.Lent.{formula_in};
ghost use Rattle.snowcoddle.specs.Promises.{ResolutionTold};

use c_answers::lay;
use terms::Variable;

// The resolution-path set of x, ascending, with the count of its members.
pub fn snow_resolution_set(
    rule: u32,
    n: u32,
    prefix: &[u32],
    clauses: &[i32],
    x: u32,
    out: &mut [u32],
    count: &mut u32,
    place: &mut u32,
) -> u32
    ensures told { ResolutionTold rule (formula_in n prefix clauses) x out count place result }
{
    let answer = path_resolution::resolution_set(rule, n, prefix, clauses, Variable(x), out);
    lay(answer, count, place)
}
