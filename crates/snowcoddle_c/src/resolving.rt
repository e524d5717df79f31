// The export that lists the resolution-path set of a universal.

ghost use Rattle.formula.specs.Lent.{formula_in};
ghost use Rattle.snowcoddle.specs.Promises.{ResolutionTold};

// The resolution-path set of x, ascending, with the count of its members.
#[unsafe(no_mangle)]
pub extern "C" fn snow_resolution_set(
    rule: u32,
    n: u32,
    prefix: &[u32],
    clauses: &[i32],
    x: u32,
    out: &mut [u32],
    count: &mut u32,
    place: &mut u32,
) -> u32
    ensures told { ResolutionTold rule (formula_in n prefix clauses) x out count place result }
{
    snowcoddle::resolving::snow_resolution_set(rule, n, prefix, clauses, x, out, count, place)
}
