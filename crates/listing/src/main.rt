// Lists the strict dependency sets of a QDIMACS text on standard input (rule 16.1): a line for the formula, and one for each universal (rule 16.2).

#![tactic(auto)]

ghost use Rattle.std.specs.Prelude.{ℕ, ◌≤◌, ◌<◌, ◌≡◌, Bool, List, [], ◌∷◌, length, take, IfOk, IfSome, OnErr};
ghost use Rattle.std.specs.Io.KnownBytes.{Appends, Consumes, IsAtEnd};
ghost use Rattle.terms.specs.declared.Scheme.TheVariants.{Strict};
ghost use Rattle.terms.specs.Answers.{InFront};
ghost use Rattle.terms.specs.Says.{fault_number};
ghost use Rattle.formula.specs.Lent.{formula_of};
ghost use Rattle.formula.specs.InnerLevels.{SoundPrefix, Levelled};
ghost use Rattle.formula.specs.InnerLookup.{SoundClauses};
ghost use Rattle.formula.specs.Meaning.{blocks, clauses as Meaning·clauses};
ghost use Rattle.sets_occurrences.specs.InnerThreads.{Closed, Tied, EnteredBy};
ghost use Rattle.sets_subtrees.specs.InnerRuns.{Run, Within, Led};
ghost use Rattle.sets.specs.InnerPassed.{Ready};
ghost use Rattle.listing_lines.specs.Lines.{universal_line, LineIn};
ghost use Rattle.listing_lines.specs.Inner.{line_bytes, Small};
ghost use Rattle.listing.specs.Listing.{IsRead, Refuses, HeadOf, LineOf, Lists, Prints, AllPrinted};
ghost use Rattle.listing.specs.Inner.{OwnForest, OwnTops, HeadPrinted, RestPrinted, flagged_line};

use forest_climb::Floor;
use forest_members::{Asked, write_picked};
use forest_tables::rows::universal_at;
use formula_levels::fill_levels;
use listing_lines::{head_line, refused_line, universal_line};
use sets_occurrences::soles::{Several, sole_point};
use sets_occurrences::{flag_points, thread};
use sets_subtrees::{refloor, row_at, write_run};
use std::io;
use std::io::{Read, Write};
use terms::pairs::{Pair, unpack};
use terms::{Level, Literal, Refusal, Scheme, Tally, Variable};

// The bytes that are read: one more than a text may have, so that a longer text is refused.
const TEXT: usize = 65537;

// The bytes of a buffer that has room for every line.
const LINE: usize = 65536;

// Where the input cannot be read the program says so, and where a line cannot be written it ends.
fn main(rt: HostRuntime) -> io::Result<()> {
    list(&mut rt.reader(), &mut io::writer(&rt))?;
    Ok(())
}

// Lists the formula of an input, and gives how many lines it printed, or none if one could not be written. Nothing is written where the input cannot be read.
fn list<R: Read, W: Write>(input: &mut R, out: &mut W) -> io::Result<Option<usize>>
    ensures unread { OnErr result (out.new ≡ out.old) }
    ensures printed { IfOk result (λ told. IfSome (R.remaining input.old)
        (λ text. AllPrinted (Prints text) (W.contents out.old) (W.contents out.new) told)) }
{
    let mut text = [0u8; TEXT];
    let got = read_full(input, &mut text)?;
    Ok(list_text(&text[..got], out))
}

// Reads until the buffer is full or the input ends, and gives how many bytes it put at the start of the buffer.
fn read_full<R: Read>(input: &mut R, text: &mut [u8]) -> io::Result<usize>
    ensures within { IfOk result (λ count. count ≤ length text.new) }
    ensures read { IfOk result (λ count. Consumes (R.remaining input.old) (R.remaining input.new) (take count text.new)) }
    ensures ended { IfOk result (λ count. count < length text.new → IsAtEnd (R.remaining input.new)) }
{
    let mut count = 0;
    // How far each read comes is for the input to say.
    while count < text.len() {
        let got = input.read(&mut text[count..])?;
        if got == 0 {
            return Ok(count);
        }
        count += got;
    }
    Ok(count)
}

// Lists the formula of a text, and gives how many lines it printed, or none if one could not be written. A table longer than the
// buffers is refused by read.
fn list_text<W: Write>(text: &[u8], out: &mut W) -> Option<usize>
    ensures printed { AllPrinted (Prints text.now) (W.contents out.old) (W.contents out.new) result }
{
    let mut prefix = [0u32; Level::ENTRIES];
    let mut clauses = [0i32; Literal::ENTRIES];
    match text_qdimacs::read(text, &mut prefix, &mut clauses) {
        Err(refusal) => print_refusal(text, refusal, out),
        Ok(counts) => {
            let prefix = &prefix[..counts.prefix];
            let clauses = &clauses[..counts.clauses];
            list_formula(text, counts.n, prefix, clauses, out)
        }
    }
}

// Prints the refusal of a text.
fn print_refusal<W: Write>(text: &[u8], refusal: Refusal, out: &mut W) -> Option<usize>
    requires refused { Refuses text.now (fault_number refusal.0) refusal.1 }
    ensures printed { AllPrinted (Prints text.now) (W.contents out.old) (W.contents out.new) result }
{
    let mut line = [0u8; LINE];
    let end = refusal_of(text, refusal, &mut line);
    print(&line[..end], out)?;
    Some(1)
}

// Writes a line, if it can be written.
fn print<W: Write>(line: &[u8], out: &mut W) -> Option<()>
    ensures written { IfSome result (λ _. Appends (W.contents out.old) (W.contents out.new) line.now) }
{
    out.write_all(line).ok()
}

// Stores the line of a refusal from the start of `line` on, and gives its length. The text stands here for the contract. Numbers and places have at most
// five digits.
fn refusal_of(text: &[u8], refusal: Refusal, line: &mut [u8]) -> usize
    requires refused { Refuses text.now (fault_number refusal.0) refusal.1 × (line_bytes ≤ length line.old) }
    ensures stored { InFront (λ (bytes : List ℕ). Prints text.now (bytes ∷ [])) line.old line.new result }
{
    let place = refusal.1 as u32;
    refused_line(line, refusal.0.number(), place)
}

// Lists the formula of a text under the first reading rule, or prints the refusal that `build` gives. The counts and the tally are not used.
fn list_formula<W: Write>(
    text: &[u8],
    n: u32,
    prefix: &[u32],
    clauses: &[i32],
    out: &mut W,
) -> Option<usize>
    requires read { IsRead text.now (formula_of n prefix.now clauses.now) }
    ensures printed { AllPrinted (Prints text.now) (W.contents out.old) (W.contents out.new) result }
{
    let mut classes = [0u32; Variable::MOST as usize];
    let mut parents = [0u32; Variable::MOST as usize];
    let mut counts = [0u32; Variable::MOST as usize];
    let none = Tally {
        clauses: 0,
        merges: 0,
        classes: 0,
    };
    let built = grow::build(
        1,
        n,
        prefix,
        clauses,
        &mut classes,
        &mut parents,
        &mut counts,
        none,
    );
    match built.answer {
        Err(refusal) => print_refusal(text, refusal, out),
        Ok(_) => list_forest(n, prefix, clauses, &classes, &parents, out),
    }
}

// The first line, and then the universals in ascending order, by the formula's own forest. The levels are looked up once for all of them.
fn list_forest<W: Write>(
    n: u32,
    prefix: &[u32],
    clauses: &[i32],
    classes: &[u32],
    parents: &[u32],
    out: &mut W,
) -> Option<usize>
    requires accepted { SoundPrefix n prefix.now × SoundClauses clauses.now × Closed clauses.now
        × OwnForest (formula_of n prefix.now clauses.now) classes.now parents.now }
    ensures printed { AllPrinted (Lists (formula_of n prefix.now clauses.now)) (W.contents out.old) (W.contents out.new) result }
{
    let mut levels = [0u32; Variable::ROWS];
    let mut universals = [false; Variable::ROWS];
    fill_levels(prefix, &mut levels, &mut universals);
    print_head(n, prefix, clauses, out)?;
    list_universals(
        n,
        prefix,
        &levels,
        &universals,
        clauses,
        classes,
        parents,
        out,
    )
}

// Prints the first line, if it can be written.
fn print_head<W: Write>(n: u32, prefix: &[u32], clauses: &[i32], out: &mut W) -> Option<()>
    requires small { (n ≤ 4096) × (length prefix.now < 100000) × (length clauses.now < 100000) }
    ensures printed { IfSome result (λ _. HeadPrinted (formula_of n prefix.now clauses.now) (W.contents out.old) (W.contents out.new)) }
{
    let mut line = [0u8; LINE];
    let end = head_of(n, prefix, clauses, &mut line);
    print(&line[..end], out)
}

// Stores the first line from the start of `line` on, and gives its length.
fn head_of(n: u32, prefix: &[u32], clauses: &[i32], line: &mut [u8]) -> usize
    requires small { (n ≤ 4096) × (length prefix.now < 100000) × (length clauses.now < 100000) × (line_bytes ≤ length line.old) }
    ensures stored { InFront (HeadOf (formula_of n prefix.now clauses.now)) line.old line.new result }
{
    let blocks = count_blocks(prefix);
    let clause_count = count_clauses(clauses);
    head_line(line, n, blocks as u32, clause_count as u32)
}

// How many blocks a prefix has: one for each 0.
fn count_blocks(prefix: &[u32]) -> usize
    ensures counted { (result ≡ length (blocks prefix.now)) × (result ≤ length prefix.now) }
{
    prefix.iter().filter(|&&entry| entry == 0).count()
}

// How many clauses a clause table has: one for each 0.
fn count_clauses(clauses: &[i32]) -> usize
    ensures counted { (result ≡ length (Meaning·clauses clauses.now)) × (result ≤ length clauses.now) }
{
    clauses.iter().filter(|&&literal| literal == 0).count()
}

// Prints a line for each universal, in ascending order, behind the first line. The occurrence list of each universal is made first.
fn list_universals<W: Write>(
    n: u32,
    prefix: &[u32],
    levels: &[u32],
    universals: &[bool],
    clauses: &[i32],
    classes: &[u32],
    parents: &[u32],
    out: &mut W,
) -> Option<usize>
    requires accepted { SoundPrefix n prefix.now × Levelled prefix.now levels.now universals.now
        × SoundClauses clauses.now × Closed clauses.now × OwnForest (formula_of n prefix.now clauses.now) classes.now parents.now }
    ensures printed { RestPrinted (formula_of n prefix.now clauses.now) (W.contents out.old) (W.contents out.new) result }
{
    let mut first = [0u32; Variable::ROWS];
    let mut next = [0u32; Literal::ENTRIES];
    thread(clauses, universals, &mut first, &mut next);
    list_tied(
        n, prefix, levels, universals, clauses, classes, parents, &first, &next, out,
    )
}

// Prints the lines, by the occurrence lists of the universals. Tops, the uppermost classes deeper than a level, and the runs of their members depend only
// on the block of a universal; they are made anew where the block changes. At first there is no top. All lines are made in one buffer. The count begins
// with the first line, which is printed before.
fn list_tied<W: Write>(
    n: u32,
    prefix: &[u32],
    levels: &[u32],
    universals: &[bool],
    clauses: &[i32],
    classes: &[u32],
    parents: &[u32],
    first: &[u32],
    next: &[u32],
    out: &mut W,
) -> Option<usize>
    requires ready { Ready n prefix.now levels.now universals.now clauses.now classes.now parents.now first.now next.now }
    requires own { OwnForest (formula_of n prefix.now clauses.now) classes.now parents.now }
    ensures printed { RestPrinted (formula_of n prefix.now clauses.now) (W.contents out.old) (W.contents out.new) result }
{
    let mut tops = [0u32; Variable::MOST as usize];
    let mut lead = [0u32; Variable::ROWS];
    let mut after = [0u32; Variable::ROWS];
    let mut line = [0u8; LINE];
    let mut floor = Floor {
        level: Level::new(Level::NONE_DEEPER),
        place: 0,
        from: 0,
    };
    let mut lines = 1;
    for passed in 0..n {
        let x = Variable::new(passed + 1);
        if !universal_at(n, universals, x) {
            continue;
        }
        floor = refloor(
            n, prefix, levels, classes, parents, floor, x, &mut tops, &mut lead, &mut after,
        );
        let end = line_of(
            n,
            prefix,
            clauses,
            first,
            next,
            x,
            floor.level,
            &tops,
            &lead,
            &after,
            &mut line,
        );
        print(&line[..end], out)?;
        lines += 1;
    }
    Some(lines)
}

// Stores the line of one universal from the start of `line` on, and gives its length. The prefix stands here for the contract. Where x has no strict
// entry point, its set is empty; where it has one, its set is the run of that.
fn line_of(
    n: u32,
    prefix: &[u32],
    clauses: &[i32],
    first: &[u32],
    next: &[u32],
    x: Variable,
    level: Level,
    tops: &[u32],
    lead: &[u32],
    after: &[u32],
    line: &mut [u8],
) -> usize
    requires tied { (n ≤ 4096) × (x.0 ≤ n) × (level.0 < 100000) × Closed clauses.now × Tied clauses.now first.now next.now x.0 }
    requires led { Within n tops.now × Led n tops.now lead.now after.now × (line_bytes ≤ length line.old) }
    requires own { OwnTops (formula_of n prefix.now clauses.now) x.0 level.0 tops.now }
    ensures stored { InFront (LineOf (formula_of n prefix.now clauses.now) x.0) line.old line.new result }
{
    match sole_point(Scheme::Strict, n, clauses, first, next, x, tops) {
        Ok(None) => universal_line(line, x.0, level.0, &[], &[]),
        Ok(Some(top)) => run_line(unpack(row_at(lead, top)), after, top, x, level, line),
        Err(Several) => flagged_line(n, clauses, first, next, x, level, tops, line),
    }
}

// Stores the line of a universal with one entry point. Its set is the run that begins at `run.low` and has `run.high` numbers.
fn run_line(
    run: Pair,
    after: &[u32],
    top: Variable,
    x: Variable,
    level: Level,
    line: &mut [u8],
) -> usize
    requires small { ((list : List ℕ) × Run after.now run.low list × (run.high ≡ length list) × Small list)
        × (top.0 ≤ 4096) × (x.0 ≤ 4096) × (level.0 < 100000) × (line_bytes ≤ length line.old) }
    ensures stored { (list : List ℕ) → Run after.now run.low list
        → LineIn (universal_line x.0 level.0 (top.0 ∷ []) list) line.old line.new result }
{
    let mut set = [0u32; Variable::MOST as usize];
    write_run(after, run.low, 0, &mut set);
    let size = run.high as usize;
    universal_line(line, x.0, level.0, &[top.0], &set[..size])
}

// Stores the line of a universal with any number of entry points: they are flagged along its occurrence list, and they and the set are listed by
// the flags.
fn flagged_line(
    n: u32,
    clauses: &[i32],
    first: &[u32],
    next: &[u32],
    x: Variable,
    level: Level,
    tops: &[u32],
    line: &mut [u8],
) -> usize
    requires tied { (n ≤ 4096) × (x.0 ≤ 4096) × (level.0 < 100000) × Tied clauses.now first.now next.now x.0
        × (line_bytes ≤ length line.old) }
    ensures stored { (flags : List Bool) × EnteredBy Strict n tops.now clauses.now x.0 flags
        × LineIn (flagged_line n tops.now flags x.0 level.0) line.old line.new result }
{
    let mut entered = [false; Variable::ROWS];
    flag_points(
        Scheme::Strict,
        n,
        clauses,
        first,
        next,
        x,
        tops,
        &mut entered,
    );
    picked_line(n, x, level, &entered, tops, line)
}

// Stores the line with the entry points and the set that the flags pick, ascending.
fn picked_line(
    n: u32,
    x: Variable,
    level: Level,
    entered: &[bool],
    tops: &[u32],
    line: &mut [u8],
) -> usize
    requires small { (n ≤ 4096) × (x.0 ≤ 4096) × (level.0 < 100000) × (line_bytes ≤ length line.old) }
    ensures stored { LineIn (flagged_line n tops.now entered.now x.0 level.0)
        line.old line.new result }
{
    let mut entries = [0u32; Variable::MOST as usize];
    let mut set = [0u32; Variable::MOST as usize];
    let found = write_picked(n, Asked::Points, entered, tops, 0, 0, &mut entries);
    let size = write_picked(n, Asked::Set, entered, tops, 0, 0, &mut set);
    universal_line(line, x.0, level.0, &entries[..found], &set[..size])
}
