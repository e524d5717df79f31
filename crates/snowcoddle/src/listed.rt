// The calls for C that read and write text with dependency lists, the second under a reading rule.

ghost use Rattle.formula.specs.Lent.{formula_in};
ghost use Rattle.snowcoddle.specs.Promises.{ReadListsTold, WriteListsTold};

use c_answers::formulas::lay_listed;
use c_answers::lay;

// Read a text with lists: n, and the three tables with the counts of their entries.
pub fn snow_read_lists(
    text: &[u8],
    n: &mut u32,
    prefix: &mut [u32],
    prefix_count: &mut u32,
    clauses: &mut [i32],
    clauses_count: &mut u32,
    lists: &mut [u32],
    lists_count: &mut u32,
    place: &mut u32,
) -> u32
    ensures told { ReadListsTold text.now n prefix prefix_count clauses clauses_count lists lists_count place result }
{
    let answer = dqbf_text::read(text, prefix, clauses, lists);
    lay_listed(answer, n, prefix_count, clauses_count, lists_count, place)
}

// Write a text with lists, with the count of its bytes.
pub fn snow_write_lists(
    rule: u32,
    n: u32,
    prefix: &[u32],
    clauses: &[i32],
    lists: &[u32],
    text: &mut [u8],
    count: &mut u32,
    place: &mut u32,
) -> u32
    ensures told { WriteListsTold rule (formula_in n prefix clauses) lists.now text count place result }
{
    let answer = dqbf_text::write(rule, n, prefix, clauses, lists, text);
    lay(answer, count, place)
}
