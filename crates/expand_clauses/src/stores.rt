// Entries stored in a table as far as it has rows, and copies looked up; a row past the end is neither written nor read.

ghost use Rattle.std.specs.Prelude.{◌≡◌, set};
ghost use Rattle.expand_clauses.specs.InnerCopied.{CopyOf};

use terms::Variable;

// Stores an entry of a table if the table has that row.
pub fn store<T: Copy>(table: &mut [T], row: usize, entry: T)
    ensures stored { table.new ≡ set table.old row entry }
{
    if row < table.len() {
        table[row] = entry;
    }
}

// The copy of v, where it has one.
pub fn copy_at(copies: &[u32], v: Variable) -> Option<Variable>
    ensures found { CopyOf copies.now v.0 result }
{
    match copies.get(v.0 as usize) {
        Some(&number) if number != 0 => Some(Variable::new(number)),
        _ => None,
    }
}
