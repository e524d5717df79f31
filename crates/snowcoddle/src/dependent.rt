// The calls for C that take dependency lists, each under a reading rule.

ghost use Rattle.formula.specs.Lent.{formula_in};
ghost use Rattle.c_answers.specs.Codes.{scheme_of};
ghost use Rattle.snowcoddle.specs.Promises.{CheckListsTold, ListedSetTold};

use c_answers::{lay, lay_verdict, scheme_in};
use terms::Variable;

// Check with lists: whether a formula and its dependency lists keep every rule.
pub fn snow_check_lists(
    rule: u32,
    n: u32,
    prefix: &[u32],
    clauses: &[i32],
    lists: &[u32],
    place: &mut u32,
) -> u32
    ensures told { CheckListsTold rule (formula_in n prefix clauses) lists.now place result }
{
    lay_verdict(dqbf_lists::check(rule, n, prefix, clauses, lists), place)
}

// The set of x by the lists and by the scheme that a number asks for, ascending, with the count of its members.
pub fn snow_listed_set_by(
    rule: u32,
    scheme: u32,
    n: u32,
    prefix: &[u32],
    clauses: &[i32],
    lists: &[u32],
    x: u32,
    out: &mut [u32],
    count: &mut u32,
    place: &mut u32,
) -> u32
    ensures told { ListedSetTold rule (scheme_of scheme) (formula_in n prefix clauses) lists.now x out count place result }
{
    let answer = dqbf_sets::set_of(
        rule,
        scheme_in(scheme),
        n,
        prefix,
        clauses,
        lists,
        Variable(x),
        out,
    );
    lay(answer, count, place)
}
