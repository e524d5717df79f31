// Levels and quantifiers of all variables (rule 1.4, rule 1.5), from one pass over an accepted prefix.

#![tactic(auto)]

ghost use Rattle.std.specs.Prelude.{ℕ, ◌≡◌};
ghost use Rattle.formula.specs.InnerLevels.{SoundPrefix, LevelRows, AllFree, Levelled};
ghost use Rattle.formula.specs.InnerLevels.{free_level};

// Fills row v with the level of variable v, and with whether v is universal, for every v up to the limit.
pub fn fill_levels(prefix: &[u32], levels: &mut [u32], universals: &mut [bool])
    requires sound { (n : ℕ) × SoundPrefix n prefix.now }
    requires rows { LevelRows levels.old universals.old }
    ensures levelled { Levelled prefix.now levels.new universals.new }
{
    levels.fill(free_level(prefix));
    universals.fill(false);
    name_levels(prefix, levels, universals);
}

// The level of a variable in no block: 1 if the first block is existential, else 0.
fn free_level(prefix: &[u32]) -> u32
    requires sound { (n : ℕ) × SoundPrefix n prefix.now }
    ensures free { result ≡ free_level prefix.now }
{
    if prefix.len() == 0 {
        return 0;
    }
    if prefix[0] == 1 { 1 } else { 0 }
}

// Enters the level and the quantifier of every variable that a block names.
fn name_levels(prefix: &[u32], levels: &mut [u32], universals: &mut [bool])
    requires sound { (n : ℕ) × SoundPrefix n prefix.now }
    requires rows { LevelRows levels.old universals.old }
    requires free { AllFree (free_level prefix.now) levels.old universals.old }
    ensures levelled { Levelled prefix.now levels.new universals.new }
{
    let mut opens = true;
    let mut mark: u32 = 0;
    let mut block: u32 = 0;
    for &entry in prefix {
        if opens {
            mark = entry;
            block += 1;
            opens = false;
        } else if entry == 0 {
            opens = true;
        } else {
            let v = entry as usize;
            levels[v] = block;
            universals[v] = mark == 2;
        }
    }
}
