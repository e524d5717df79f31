// The call for C that checks the pairs of another tool, under a reading rule.

ghost use Rattle.formula.specs.Lent.{formula_in};
ghost use Rattle.snowcoddle.specs.Promises.{PathTold};

use terms::Variable;

// The path check: whether a path of clause numbers is acceptable for the pair (x, y). The cell `place` is as wide as a length, since a path may
// be of any length.
pub fn snow_path(
    rule: u32,
    n: u32,
    prefix: &[u32],
    clauses: &[i32],
    x: u32,
    y: u32,
    path: &[u32],
    place: &mut usize,
) -> u32
    ensures told { PathTold rule (formula_in n prefix clauses) x y path.now place result }
{
    let answer = path_check::path_verdict(rule, n, prefix, clauses, Variable(x), Variable(y), path);
    match answer {
        Ok(()) => 0,
        Err(refusal) => {
            *place = refusal.1;
            refusal.0.number()
        }
    }
}
