// The records of a file one after the other: lengths, kinds, their order, the sum of its words, where each begins, and the numbers that they hold.

#![tactic(auto)]

pub mod decoding;
pub mod places;

ghost use Rattle.std.specs.Prelude.{◌≤◌, ◌≡◌, [], ◌∷◌, length};
ghost use Rattle.terms.specs.Says.{said};
ghost use Rattle.terms.specs.Refusals.{At0, None, Judged};
ghost use Rattle.forest_tables.specs.InnerRows.{Tells};
ghost use Rattle.file_format.specs.Layout.{SumsToZero};
ghost use Rattle.file_format.specs.Places.{RecordAt};
ghost use Rattle.file_format.specs.InnerPlaces.{may_follow, StepCause};
ghost use Rattle.file_format.specs.Causes.{file_bytes, RecordCause, OrderCause};
ghost use Rattle.file_format.specs.InnerOrders.{file_order};
ghost use Rattle.file_layout.specs.InnerLaid.{WrongSize, Passed};

use file_format::Record;
use file_format::sums::sum_words;
use places::{kind_at, next_at, size_at};
use terms::{Fault, Refusal};

// The first cause of refusals 19 to 21 in a file.
pub fn layout_verdict(file: &[u8]) -> Result<(), Refusal>
    ensures judged { Judged (file_order file.now) result }
{
    if Record::FILE_BYTES < file.len() {
        return Err(Refusal(Fault::WrongRecord, 0));
    }
    shape_verdict(file)?;
    order_and_sum(file)
}

// Refusals 20 and 21, once every record is whole.
fn order_and_sum(file: &[u8]) -> Result<(), Refusal>
    requires whole { (length file.now ≤ file_bytes) × None (RecordCause file.now) }
    ensures judged { Judged (OrderCause file.now ∷ At0 21 (SumsToZero file.now → ⊥) ∷ []) result }
{
    order_verdict(file)?;
    if sum_words(file) != 0 {
        return Err(Refusal(Fault::WrongSum, 0));
    }
    Ok(())
}

// The first record that is cut, or whose length does not fit its kind.
fn shape_verdict(file: &[u8]) -> Result<(), Refusal>
    requires short { length file.now ≤ file_bytes }
    ensures judged { Judged (RecordCause file.now ∷ []) result }
{
    let mut at = 0;
    // From record to record: where the next one begins is what the length in the head of this one says.
    while at < file.len() {
        at = pass_record(file, at)?;
    }
    Ok(())
}

// The place behind the record at a place, unless it is cut by the end of the file, or its length does not fit its kind.
fn pass_record(file: &[u8], at: usize) -> Result<usize, Refusal>
    requires begins { (length file.now ≤ file_bytes) × RecordAt file.now at }
    ensures passed { Passed file.now at (said result) }
{
    let next = next_at(file, at);
    let size = size_at(file, at);
    if file.len() < next || wrong_size(kind_at(file, at), size) {
        return Err(Refusal(Fault::WrongRecord, at));
    }
    Ok(next)
}

// Whether a payload length does not fit a kind.
fn wrong_size(kind: u32, size: u32) -> bool
    ensures told { Tells result (WrongSize kind size) }
{
    if size % 2 != 0 {
        return true;
    }
    match kind {
        Record::PREFIX => size < 2,
        Record::CLAUSES => size % 4 != 0,
        Record::CLOSING => size != 2,
        _ => false,
    }
}

// The first record of a kind that may not come there, or the end of the file where a kind is missing.
fn order_verdict(file: &[u8]) -> Result<(), Refusal>
    requires whole { (length file.now ≤ file_bytes) × None (RecordCause file.now) }
    ensures judged { Judged (StepCause file.now ∷ []) result }
{
    let mut at = 0;
    let mut before = Record::START;
    // From record to record, as in the scan of the lengths.
    while at < file.len() {
        let kind = kind_at(file, at);
        if !may_follow(before, kind) {
            return Err(Refusal(Fault::WrongOrder, at));
        }
        before = kind;
        at = next_at(file, at);
    }
    if before != Record::CLOSING {
        return Err(Refusal(Fault::WrongOrder, at));
    }
    Ok(())
}

// Whether a kind may come behind a kind, or as the first.
fn may_follow(before: u32, kind: u32) -> bool
    ensures told { result ≡ may_follow before kind }
{
    match before {
        Record::START => kind == Record::PREFIX,
        Record::PREFIX => kind == Record::CLAUSES,
        Record::CLAUSES => kind == Record::ROWS,
        Record::ROWS => kind == Record::SETS || kind == Record::CLOSING,
        Record::SETS => kind == Record::CLOSING,
        _ => false,
    }
}
