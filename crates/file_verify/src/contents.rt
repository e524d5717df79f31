// What the records of a file hold: the formula is judged once under a reading rule, its forest is built, and rows and sets are compared with it.

ghost use Rattle.std.specs.Prelude.{◌≤◌, ◌≡◌, ◌++◌, length};
ghost use Rattle.terms.specs.Limits.{most_variables, prefix_entries, clause_entries};
ghost use Rattle.formula.specs.Lent.{formula_of, formula_in};
ghost use Rattle.forest_tables.specs.Lent.{rows};
ghost use Rattle.forest_tables.specs.InnerRows.{Tells};
ghost use Rattle.file_format.specs.Layout.{ForestRows};
ghost use Rattle.file_format.specs.Places.{third_at, fourth_at, HoldsNumbers, formula_held};
ghost use Rattle.file_format.specs.Causes.{RightSets};
ghost use Rattle.file_layout.specs.InnerLaid.{Laid};
ghost use Rattle.file_verify.specs.InnerVerified.{IsRule, SoundFormula, OwnForest, Judges, JudgesRows, set_numbers};

use file_format::Record;
use file_format::numbers::two_at;
use file_layout::decoding::{fill_formula, same_numbers};
use file_layout::places::{clause_entries, fourth_at, has_sets, prefix_entries, size_at, third_at};
use formula_rules::take_formula;
use grow::building::build_sound;
use sets::formed_sets;
use terms::{Fault, Level, Literal, Refusal, Scheme, Variable};

// The most numbers that the record of kind 4 may have: two bytes each, in the longest file.
const SET_NUMBERS: usize = 131072;

// The first cause of refusal in the formula of a file, and then in its rows and sets. The formula is read into tables of its own, which hold as much
// as the limits allow.
pub fn contents_verdict(rule: u32, file: &[u8]) -> Result<(), Refusal>
    requires laid { Laid file.now × IsRule rule }
    ensures judged { Judges rule (formula_held file.now) file.now result }
{
    let n = two_at(file, Record::HEAD);
    let entries = prefix_entries(file);
    let literals = clause_entries(file);
    if Variable::MOST < n {
        return Err(Refusal(Fault::TooManyVariables, 0));
    }
    if Level::ENTRIES < entries {
        return Err(Refusal(Fault::TooManyEntries, 0));
    }
    if Literal::ENTRIES < literals {
        return Err(Refusal(Fault::TooManyEntries, 0));
    }
    read_verdict(rule, file, n, entries, literals)
}

// The first cause in the formula of a file and behind it, once its n and its lengths are within the limits.
fn read_verdict(
    rule: u32,
    file: &[u8],
    n: u32,
    entries: usize,
    literals: usize,
) -> Result<(), Refusal>
    requires held { Laid file.now × (n ≡ (formula_held file.now).n) × (entries ≡ length (formula_held file.now).prefix)
        × (literals ≡ length (formula_held file.now).clauses) }
    requires limits { (entries ≤ prefix_entries) × (literals ≤ clause_entries) }
    ensures judged { Judges rule (formula_held file.now) file.now result }
{
    let mut prefix = [0u32; Level::ENTRIES];
    let mut clauses = [0i32; Literal::ENTRIES];
    fill_formula(file, &mut prefix, &mut clauses);
    formula_verdict(rule, file, n, &prefix[..entries], &clauses[..literals])
}

// The first cause in a formula, and then in the rows and sets of a file, by the formula as the rule reads it.
fn formula_verdict(
    rule: u32,
    file: &[u8],
    n: u32,
    prefix: &[u32],
    clauses: &[i32],
) -> Result<(), Refusal>
    requires laid { Laid file.now }
    ensures judged { Judges rule (formula_in n prefix clauses) file.now result }
{
    let mut joined = [0u32; Level::JOINED];
    let read = take_formula(rule, n, prefix, clauses, &mut joined)?;
    forest_verdict(file, n, read, clauses)
}

// Refusal 22, by an accepted formula: its forest is built in tables of its own.
fn forest_verdict(file: &[u8], n: u32, prefix: &[u32], clauses: &[i32]) -> Result<(), Refusal>
    requires sound { Laid file.now × SoundFormula (formula_of n prefix.now clauses.now) }
    ensures judged { JudgesRows (formula_in n prefix clauses) file.now result }
{
    let mut classes = [0u32; Variable::MOST as usize];
    let mut parents = [0u32; Variable::MOST as usize];
    let mut counts = [0u32; Variable::MOST as usize];
    build_sound(n, prefix, clauses, &mut classes, &mut parents, &mut counts);
    let rows = n as usize;
    rows_verdict(
        file,
        n,
        prefix,
        clauses,
        &classes[..rows],
        &parents[..rows],
        &counts[..rows],
    )
}

// Refusal 22, by an accepted formula and the rows of its forest: the file's rows are compared with them, and then its sets, if it has any.
fn rows_verdict(
    file: &[u8],
    n: u32,
    prefix: &[u32],
    clauses: &[i32],
    classes: &[u32],
    parents: &[u32],
    counts: &[u32],
) -> Result<(), Refusal>
    requires sound { Laid file.now × SoundFormula (formula_of n prefix.now clauses.now) }
    requires rows { ForestRows (formula_of n prefix.now clauses.now) (rows classes.now parents.now counts.now) }
    ensures judged { JudgesRows (formula_in n prefix clauses) file.now result }
{
    if !rows_hold(file, classes, parents, counts) {
        return Err(Refusal(Fault::WrongContents, third_at(file)));
    }
    if has_sets(file) && !sets_hold(file, n, prefix, clauses, classes, parents) {
        return Err(Refusal(Fault::WrongContents, fourth_at(file)));
    }
    Ok(())
}

// Whether the record of kind 3 has just these rows.
fn rows_hold(file: &[u8], classes: &[u32], parents: &[u32], counts: &[u32]) -> bool
    requires small { Laid file.now × (length classes.now ≤ most_variables) × (length parents.now ≤ most_variables)
        × (length counts.now ≤ most_variables) }
    ensures told { Tells result (HoldsNumbers 4 file.now (third_at file.now)
        (classes.now ++ (parents.now ++ counts.now))) }
{
    let third = third_at(file);
    let size = size_at(file, third) as usize;
    if size != 4 * (classes.len() + parents.len() + counts.len()) {
        return false;
    }
    let first = third + Record::HEAD;
    if !same_numbers(file, 4, first, classes) {
        return false;
    }
    let second = first + 4 * classes.len();
    if !same_numbers(file, 4, second, parents) {
        return false;
    }
    same_numbers(file, 4, second + 4 * parents.len(), counts)
}

// Whether the record of kind 4 has just the sets of the formula, by class names and parents of its forest.
fn sets_hold(
    file: &[u8],
    n: u32,
    prefix: &[u32],
    clauses: &[i32],
    classes: &[u32],
    parents: &[u32],
) -> bool
    requires sound { Laid file.now × SoundFormula (formula_of n prefix.now clauses.now) }
    requires forest { OwnForest (formula_of n prefix.now clauses.now) classes.now parents.now }
    ensures told { Tells result (RightSets (formula_in n prefix clauses) file.now) }
{
    let mut list = [0u32; SET_NUMBERS];
    listed_hold(file, n, prefix, clauses, classes, parents, &mut list)
}

// Whether the record of kind 4 has just the sets of the formula, which are listed in a table first. Where they do not fit there, no file can hold them.
fn listed_hold(
    file: &[u8],
    n: u32,
    prefix: &[u32],
    clauses: &[i32],
    classes: &[u32],
    parents: &[u32],
    list: &mut [u32],
) -> bool
    requires sound { Laid file.now × SoundFormula (formula_of n prefix.now clauses.now) }
    requires forest { OwnForest (formula_of n prefix.now clauses.now) classes.now parents.now × (length list.old ≡ set_numbers) }
    ensures told { Tells result (RightSets (formula_in n prefix clauses) file.now) }
{
    match formed_sets(Scheme::Standard, n, prefix, clauses, classes, parents, list) {
        Ok(count) => list_holds(file, &list[..count as usize]),
        Err(_) => false,
    }
}

// Whether the record behind that of kind 3 has just these numbers, two bytes each.
fn list_holds(file: &[u8], list: &[u32]) -> bool
    requires small { Laid file.now × (length list.now ≤ set_numbers) }
    ensures told { Tells result (HoldsNumbers 2 file.now (fourth_at file.now) list.now) }
{
    let fourth = fourth_at(file);
    let size = size_at(file, fourth) as usize;
    if size != 2 * list.len() {
        return false;
    }
    same_numbers(file, 2, fourth + Record::HEAD, list)
}
