// Answers laid out for a C caller: the number that is returned, a cell for each part of what is given and the cell `place`; and what a C caller
// lends by a number. A call that accepts keeps `place`, and one that refuses keeps every other cell.

#![tactic(auto)]

pub mod formulas;
pub mod tallies;

ghost use Rattle.std.specs.Prelude.{◌≡◌};
ghost use Rattle.c_answers.specs.Codes.{scheme_of};
ghost use Rattle.c_answers.specs.InnerCells.{Fits, Any, InCell, NoneLaid, OneLaid, TwoLaid, fault_number, said, entry_said};

use terms::{Point, Refusal, Scheme};

// A refusal: its place goes into the cell, and its number is what the call returns.
fn lay_refusal(refusal: Refusal, place: &mut u32) -> u32
    requires fits { InCell refusal.1 }
    ensures number { result ≡ fault_number refusal.0 }
    ensures place { place.new ≡ refusal.1 }
{
    *place = refusal.1 as u32;
    refusal.0.number()
}

// A verdict: there is nothing but the place of a refusal.
pub fn lay_verdict(verdict: Result<(), Refusal>, place: &mut u32) -> u32
    requires fits { Fits Any (said verdict) }
    ensures laid { NoneLaid (said verdict) place result }
{
    match verdict {
        Ok(()) => 0,
        Err(refusal) => lay_refusal(refusal, place),
    }
}

// An answer with a count.
pub fn lay(answer: Result<u32, Refusal>, count: &mut u32, place: &mut u32) -> u32
    requires fits { Fits Any (said answer) }
    ensures laid { OneLaid (said answer) count place result }
{
    match answer {
        Ok(written) => {
            *count = written;
            0
        }
        Err(refusal) => lay_refusal(refusal, place),
    }
}

// An entry point and the rises up to it.
pub fn lay_entry(
    answer: Result<Point, Refusal>,
    entry: &mut u32,
    rises: &mut u32,
    place: &mut u32,
) -> u32
    requires fits { Fits Any (entry_said answer) }
    ensures laid { TwoLaid (entry_said answer) entry rises place result }
{
    match answer {
        Ok(point) => {
            *entry = point.class.0;
            *rises = point.rises;
            0
        }
        Err(refusal) => lay_refusal(refusal, place),
    }
}

// The scheme that a number asks for.
pub fn scheme_in(number: u32) -> Scheme
    ensures asked { result ≡ scheme_of number }
{
    if number == 2 {
        Scheme::Strict
    } else {
        Scheme::Standard
    }
}
