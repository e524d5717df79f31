// The numbers of the copies that members of the set get.

ghost use Rattle.std.specs.Prelude.{ℕ, ◌≤◌, ◌≡◌, length, get_or};
ghost use Rattle.terms.specs.Limits.{most_variables};
ghost use Rattle.terms.specs.InnerLimits.{variable_rows};
ghost use Rattle.expand_clauses.specs.InnerCopies.{copy_of};
ghost use Rattle.expand_clauses.specs.InnerCopied.{tabled};

// Gives each member the number of its copy, in the row of the member: n + 1 for the first, and one more for each that follows.
pub fn number(n: u32, members: &[u32], copies: &mut [u32])
    requires few { (n ≤ most_variables) × (length members.now ≤ most_variables) × ((k : ℕ) → get_or members.now k 0 ≤ most_variables) }
    requires blank { (length copies.old ≡ variable_rows) × ((v : ℕ) → tabled copies.old v ≡ 0) }
    ensures numbered { (length copies.new ≡ variable_rows)
        × ((v : ℕ) → tabled copies.new v ≡ copy_of n members.now v) }
{
    for (k, &member) in members.iter().enumerate().rev() {
        copies[member as usize] = n + k as u32 + 1;
    }
}
