// The export that expands a universal.

ghost use Rattle.formula.specs.Lent.{formula_in};
ghost use Rattle.snowcoddle.specs.Promises.{ExpandTold};

// Expand: the formula with the universal x removed, its variable count, and the counts of the entries of both its tables.
#[unsafe(no_mangle)]
pub extern "C" fn snow_expand(
    rule: u32,
    n: u32,
    prefix: &[u32],
    clauses: &[i32],
    x: u32,
    out_n: &mut u32,
    out_prefix: &mut [u32],
    prefix_count: &mut u32,
    out_clauses: &mut [i32],
    clauses_count: &mut u32,
    place: &mut u32,
) -> u32
    ensures told { ExpandTold rule (formula_in n prefix clauses) x out_n out_prefix prefix_count out_clauses clauses_count place result }
{
    snowcoddle::expanding::snow_expand(
        rule,
        n,
        prefix,
        clauses,
        x,
        out_n,
        out_prefix,
        prefix_count,
        out_clauses,
        clauses_count,
        place,
    )
}
