// The calls that ask of a lent forest, under a reading rule: the entry point of x for y, the entry points of x, the set of x and its size, by the
// standard scheme or the strict one.

#![tactic(auto)]

mod entering;

ghost use Rattle.std.specs.Prelude.{◌≤◌, ◌≡◌, [], ◌∷◌, ◌++◌, length};
ghost use Rattle.terms.specs.Limits.{most_variables};
ghost use Rattle.terms.specs.Answers.{Answered, AnsweredNumber, Listing, TooLong};
ghost use Rattle.terms.specs.Refusals.{At0};
ghost use Rattle.formula.specs.Lent.{formula_in, prefix_in};
ghost use Rattle.formula.specs.Meaning.{level};
ghost use Rattle.formula.specs.InnerLevels.{SoundPrefix};
ghost use Rattle.formula.specs.InnerLookup.{SoundClauses};
ghost use Rattle.forest_tables.specs.InnerCounting.{FormedBy};
ghost use Rattle.forest_tables.specs.Lent.{rows, rows_in};
ghost use Rattle.forest.specs.InnerOrders.{behind_entry, behind_check};
ghost use Rattle.forest.specs.Answers.{Entry, MembersBy, SizeBy, EntryAnswered, ListedFor, EntriesListed, SetListed, Sized};
ghost use Rattle.forest.specs.InnerWanted.{Lists, Wanted};

use entering::{enter, enter_over};
use forest_climb::find_entry;
use forest_members::{Asked, list_picked, sum_flagged, write_picked};
use forest_tables::checking::check_forest;
use forest_tables::rows::universal_at;
use formula_levels::fill_levels;
use formula_rules::{take_formula, take_prefix};
use terms::{Fault, Level, Point, Refusal, Scheme, Variable};

// What is listed for x: its entry points or its set, by a scheme.
#[derive(Clone, Copy)]
struct Question {
    x: Variable,
    scheme: Scheme,
    asked: Asked,
}

// The entry point of x for y, and the number of rises from the class of y up to it.
pub fn entry_point(
    rule: u32,
    n: u32,
    prefix: &[u32],
    classes: &[u32],
    parents: &[u32],
    counts: &[u32],
    x: Variable,
    y: Variable,
) -> Result<Point, Refusal>
    ensures answer { EntryAnswered rule (prefix_in n prefix) (rows_in classes parents counts) x.0 y.0 result }
{
    let mut joined = [0u32; Level::JOINED];
    let read = take_prefix(rule, n, prefix, 0, &mut joined)?;
    sound_entry(n, read, classes, parents, counts, x, y)
}

// The entry points of x by a scheme, written ascending into `out`, with their count.
pub fn entry_points(
    rule: u32,
    scheme: Scheme,
    n: u32,
    prefix: &[u32],
    clauses: &[i32],
    classes: &[u32],
    parents: &[u32],
    counts: &[u32],
    x: Variable,
    out: &mut [u32],
) -> Result<u32, Refusal>
    ensures listed { EntriesListed rule scheme (formula_in n prefix clauses) (rows_in classes parents counts) x.0
        out.old out.new result }
{
    let asked = Asked::Points;
    let question = Question { x, scheme, asked };
    list_asked(
        rule, n, prefix, clauses, classes, parents, counts, question, out,
    )
}

// The set of x by a scheme, written ascending into `out`, with the count of its members.
pub fn set_of(
    rule: u32,
    scheme: Scheme,
    n: u32,
    prefix: &[u32],
    clauses: &[i32],
    classes: &[u32],
    parents: &[u32],
    counts: &[u32],
    x: Variable,
    out: &mut [u32],
) -> Result<u32, Refusal>
    ensures listed { SetListed rule scheme (formula_in n prefix clauses) (rows_in classes parents counts) x.0 out.old out.new result }
{
    let asked = Asked::Set;
    let question = Question { x, scheme, asked };
    list_asked(
        rule, n, prefix, clauses, classes, parents, counts, question, out,
    )
}

// The size of the set of x by a scheme, by the counts of its entry points.
pub fn set_size(
    rule: u32,
    scheme: Scheme,
    n: u32,
    prefix: &[u32],
    clauses: &[i32],
    classes: &[u32],
    parents: &[u32],
    counts: &[u32],
    x: Variable,
) -> Result<u32, Refusal>
    ensures sized { Sized rule scheme (formula_in n prefix clauses) (rows_in classes parents counts) x.0 result }
{
    let mut joined = [0u32; Level::JOINED];
    let read = take_formula(rule, n, prefix, clauses, &mut joined)?;
    sound_size(scheme, n, read, clauses, classes, parents, counts, x)
}

// Lists what a question asks for.
fn list_asked(
    rule: u32,
    n: u32,
    prefix: &[u32],
    clauses: &[i32],
    classes: &[u32],
    parents: &[u32],
    counts: &[u32],
    question: Question,
    out: &mut [u32],
) -> Result<u32, Refusal>
    ensures listed { ListedFor rule (formula_in n prefix clauses) (rows_in classes parents counts) question.x.0
        (λ read. Wanted question.scheme question.asked read (rows_in classes parents counts) question.x.0)
        out.old out.new result }
{
    let mut joined = [0u32; Level::JOINED];
    let read = take_formula(rule, n, prefix, clauses, &mut joined)?;
    sound_list(n, read, clauses, classes, parents, counts, question, out)
}

// Lists what a question asks for, of an accepted formula: the entry points of x are flagged, and what is asked for is picked by the flags.
fn sound_list(
    n: u32,
    prefix: &[u32],
    clauses: &[i32],
    classes: &[u32],
    parents: &[u32],
    counts: &[u32],
    question: Question,
    out: &mut [u32],
) -> Result<u32, Refusal>
    requires sound { SoundPrefix n prefix.now × SoundClauses clauses.now }
    ensures listed { Listing (behind_check n prefix.now (rows_in classes parents counts) question.x.0
        ++ (At0 14 (TooLong (Wanted question.scheme question.asked (formula_in n prefix clauses) (rows_in classes parents counts) question.x.0)
        out.old) ∷ []))
        (Wanted question.scheme question.asked (formula_in n prefix clauses) (rows_in classes parents counts) question.x.0)
        out.old out.new result }
{
    let mut tops = [0u32; Variable::ROWS];
    let mut entered = [false; Variable::ROWS];
    let x = question.x;
    let scheme = question.scheme;
    let asked = question.asked;
    enter(
        scheme,
        n,
        prefix,
        clauses,
        classes,
        parents,
        counts,
        x,
        &mut tops,
        &mut entered,
    )?;
    list_picked(n, asked, &entered, &tops, out)
}

// The set of x by a scheme, of an accepted formula with well-formed rows, for an x whose level is known: written ascending into a table that has room
// for all variables, with the count of its members. Nothing is judged.
pub fn sound_members(
    scheme: Scheme,
    n: u32,
    prefix: &[u32],
    clauses: &[i32],
    classes: &[u32],
    parents: &[u32],
    x: Variable,
    floor: Level,
    out: &mut [u32],
) -> usize
    requires sound { SoundPrefix n prefix.now × SoundClauses clauses.now }
    requires formed { FormedBy n prefix.now classes.now parents.now }
    requires place { (x.0 ≤ most_variables) × (floor.0 ≡ level prefix.now x.0) }
    requires room { n ≤ length out.old }
    ensures listed { Lists (MembersBy scheme (formula_in n prefix clauses) (rows classes.now parents.now []) x.0)
        out.old out.new result }
{
    let mut tops = [0u32; Variable::ROWS];
    let mut entered = [false; Variable::ROWS];
    enter_over(
        scheme,
        n,
        prefix,
        clauses,
        classes,
        parents,
        x,
        floor,
        &mut tops,
        &mut entered,
    );
    write_picked(n, Asked::Set, &entered, &tops, 0, 0, out)
}

// The size of the set of x by a scheme, of an accepted formula.
fn sound_size(
    scheme: Scheme,
    n: u32,
    prefix: &[u32],
    clauses: &[i32],
    classes: &[u32],
    parents: &[u32],
    counts: &[u32],
    x: Variable,
) -> Result<u32, Refusal>
    requires sound { SoundPrefix n prefix.now × SoundClauses clauses.now }
    ensures sized { AnsweredNumber (behind_check n prefix.now (rows_in classes parents counts) x.0)
        (SizeBy scheme (formula_in n prefix clauses) (rows_in classes parents counts) x.0) result }
{
    let mut tops = [0u32; Variable::ROWS];
    let mut entered = [false; Variable::ROWS];
    enter(
        scheme,
        n,
        prefix,
        clauses,
        classes,
        parents,
        counts,
        x,
        &mut tops,
        &mut entered,
    )?;
    Ok(sum_flagged(n, &entered, counts))
}

// The entry point of x for y, by an accepted prefix.
fn sound_entry(
    n: u32,
    prefix: &[u32],
    classes: &[u32],
    parents: &[u32],
    counts: &[u32],
    x: Variable,
    y: Variable,
) -> Result<Point, Refusal>
    requires sound { SoundPrefix n prefix.now }
    ensures answer { Answered (behind_entry n prefix.now (rows_in classes parents counts) x.0 y.0)
        (Entry (prefix_in n prefix) (rows_in classes parents counts) x.0 y.0) result }
{
    let mut levels = [0u32; Variable::ROWS];
    let mut universals = [false; Variable::ROWS];
    fill_levels(prefix, &mut levels, &mut universals);
    check_forest(n, prefix, &levels, &universals, classes, parents, counts)?;
    if !universal_at(n, &universals, x) {
        return Err(Refusal(Fault::NotAskable, 0));
    }
    find_entry(n, &levels, &universals, classes, parents, x, y).ok_or(Refusal(Fault::NotAskable, 0))
}
