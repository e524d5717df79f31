// The depth of each variable: one number that tells whether it is existential and how deep it stands.

ghost use Rattle.std.specs.Prelude.{ℕ, ◌+◌, ◌≤◌, ◌<◌, ◌≡◌, false, length, get_or};
ghost use Rattle.terms.specs.Limits.{prefix_entries};
ghost use Rattle.terms.specs.InnerLimits.{variable_rows};
ghost use Rattle.formula.specs.InnerLevels.{SoundPrefix};
ghost use Rattle.grow_passes.specs.InnerRows.{EndsAt, depth_of, Depths};

use formula_levels::fill_levels;
use terms::Variable;

// Fills row v with the depth of the variable v: its level plus one for an existential, 0 for all else. The rows past n hold 0 already.
pub fn fill_depths(n: u32, prefix: &[u32], depths: &mut [u32])
    requires sound { SoundPrefix n prefix.now }
    requires table { EndsAt n depths.old }
    ensures depths { Depths n prefix.now depths.new }
{
    let mut levels = [0u32; Variable::ROWS];
    let mut universals = [false; Variable::ROWS];
    fill_levels(prefix, &mut levels, &mut universals);
    rank(n, &levels, &universals, depths);
}

// Fills every row up to n by the level and the quantifier of its variable.
fn rank(n: u32, levels: &[u32], universals: &[bool], depths: &mut [u32])
    requires tables { (length levels.now ≡ variable_rows) × (length universals.now ≡ variable_rows) × EndsAt n depths.old
        × ((v : ℕ) → get_or levels.now v 0 ≤ prefix_entries + 1) }
    ensures depths { (v : ℕ) → v < variable_rows → get_or depths.new v 0
        ≡ depth_of n v (get_or levels.now v 0) (get_or universals.now v false) }
{
    for v in 0..=n {
        let at = v as usize;
        depths[at] = depth(n, v, levels[at], universals[at]);
    }
}

// The depth of v, by its level and its quantifier: 0 for what is no variable of 1 to n.
fn depth(n: u32, v: u32, level: u32, universal: bool) -> u32
    requires fits { level ≤ prefix_entries + 1 }
    ensures depth { result ≡ depth_of n v level universal }
{
    if v < 1 {
        return 0;
    }
    if n < v {
        return 0;
    }
    if universal { 0 } else { level + 1 }
}
