// The exports that write and read text with dependency lists.

ghost use Rattle.formula.specs.Lent.{formula_in};
ghost use Rattle.snowcoddle.specs.Promises.{ReadListsTold, WriteListsTold};

// Read a text with lists: n, and the three tables with the counts of their entries.
#[unsafe(no_mangle)]
pub extern "C" fn snow_read_lists(
    text: &[u8],
    n: &mut u32,
    prefix: &mut [u32],
    prefix_count: &mut u32,
    clauses: &mut [i32],
    clauses_count: &mut u32,
    lists: &mut [u32],
    lists_count: &mut u32,
    place: &mut u32,
) -> u32
    ensures told { ReadListsTold text.now n prefix prefix_count clauses clauses_count lists lists_count place result }
{
    snowcoddle::listed::snow_read_lists(
        text,
        n,
        prefix,
        prefix_count,
        clauses,
        clauses_count,
        lists,
        lists_count,
        place,
    )
}

// Write a text with lists, with the count of its bytes.
#[unsafe(no_mangle)]
pub extern "C" fn snow_write_lists(
    rule: u32,
    n: u32,
    prefix: &[u32],
    clauses: &[i32],
    lists: &[u32],
    text: &mut [u8],
    count: &mut u32,
    place: &mut u32,
) -> u32
    ensures told { WriteListsTold rule (formula_in n prefix clauses) lists.now text count place result }
{
    snowcoddle::listed::snow_write_lists(rule, n, prefix, clauses, lists, text, count, place)
}
