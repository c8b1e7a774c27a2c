// The verdict on a case: the oracle's answer against the library's, but for agreed departures; the tally of verdicts.
#![tactic(auto)]

ghost use Rattle.std.specs.Prelude.{◌≡◌, IfOk, bytes_eq};
ghost use Rattle.verdicts.specs.Refused.{oracles_own, has_own, refusing, refused_end, refused, refusable};
ghost use Rattle.verdicts.specs.Refused.{refused_opening};
ghost use Rattle.verdicts.specs.Departures.{agreed};
ghost use Rattle.verdicts.specs.Judged.{judged};
ghost use Rattle.verdicts.specs.Tallied.{none, tallied};
ghost use Rattle.verdicts.specs.declared.Verdict.{Verdict};

use config::QspiError;
use core_delays::{delays, due};
use leaves_qpi::{leaves, modes};
use std::alloc::{AllocError, Global};

// What the comparison of a case found.
#[derive(Clone, Copy, Debug, PartialEq, Eq)]
pub enum Verdict {
    Same,
    // Another answer than the oracle's is due, by an agreed departure, and the library gave it.
    Excluded,
    Different,
}

// How many cases were compared, excluded and different, and the number of the first that differs, from 1. Each goes
// round at 2^64.
#[derive(Clone, Copy, Debug, Default, PartialEq, Eq)]
pub struct Tally {
    pub replayed: u64,
    pub excluded: u64,
    pub differ: u64,
    pub first: Option<u64>,
}

impl Tally {
    // Of no case.
    pub fn new() -> Tally
        ensures { result ≡ none }
    {
        Tally::default()
    }

    fn different(self) -> Tally
        ensures { result ≡ tallied Verdict.Different self }
    {
        let replayed = self.replayed.wrapping_add(1);
        let case = replayed.wrapping_add(self.excluded);
        Tally {
            replayed,
            differ: self.differ.wrapping_add(1),
            first: self.first.or(Some(case)),
            ..self
        }
    }

    // With one case more.
    pub fn counted(self, verdict: Verdict) -> Tally
        ensures { result ≡ tallied verdict self }
    {
        match verdict {
            Verdict::Same => Tally {
                replayed: self.replayed.wrapping_add(1),
                ..self
            },
            Verdict::Excluded => Tally {
                excluded: self.excluded.wrapping_add(1),
                ..self
            },
            Verdict::Different => self.different(),
        }
    }
}

// A line that only the oracle has: the Rust panics, or has no form for the case.
#[tactic(auto, unfolding(crate::specs::Refused::oracles_own))]
fn oracles_own_line(line: &[u8]) -> bool
    ensures { result ≡ oracles_own line.now }
{
    line == b"refused".as_slice() || line == b"none".as_slice() || line.starts_with(b"panic ")
}

fn has_oracles_own_line(answer: &[u8]) -> bool
    ensures { result ≡ has_own answer.now }
{
    answer
        .split(|b| *b == b'\n')
        .any(|line| oracles_own_line(line))
}

// One of the numbers by which a call is refused: 12 is the clock rate's alone.
#[tactic(auto, unfolding(crate::specs::Refused::refusing))]
fn refuses(number: u32) -> bool
    ensures { result ≡ refusing number }
{
    config::touches_nothing(number) && number != QspiError::Divider.number()
}

// An end line with such a number and all counts 0.
fn refusal_line(line: &[u8]) -> bool
    ensures { result ≡ refused_end line.now }
{
    let Some(counts) = line.strip_prefix(b"end ") else {
        return false;
    };
    let Some(word) = counts.strip_suffix(b" 0 0 0 0") else {
        return false;
    };
    match cases::number(word) {
        Some(number) => refuses(number),
        None => false,
    }
}

// A refused call of this name: no entry, and no byte another. A refused opening has no rate, refused dividers no rate.
#[tactic(auto, unfolding(crate::specs::Refused::refused))]
fn is_refusal(name: &[u8], answer: &[u8]) -> bool
    ensures { result ≡ refused name.now answer.now }
{
    if name == b"sck".as_slice() {
        return answer == b"sck 12 0\n".as_slice();
    }
    let Some(end) = cases::find(answer, 0, answer.len(), b'\n') else {
        return false;
    };
    let (line, rest) = answer.split_at(end);
    if name == b"open".as_slice() {
        return refusal_line(line) && rest == b"\nrate 0\n".as_slice();
    }
    refusal_line(line) && rest == b"\n".as_slice()
}

// Release, clock choice and dummies refuse nothing.
#[tactic(auto, unfolding(crate::specs::Refused::refusable))]
fn may_be_refused(name: &[u8]) -> bool
    ensures { result ≡ refusable name.now }
{
    name != b"free".as_slice() && name != b"clock".as_slice() && name != b"dummy".as_slice()
}

// The whole answer of an opening that is refused by the number of these digits.
fn is_refused_opening(digits: &[u8], answer: &[u8]) -> bool
    ensures { result ≡ bytes_eq answer.now (refused_opening digits.now) }
{
    let Some(rest) = answer.strip_prefix(b"end ") else {
        return false;
    };
    let Some(rest) = rest.strip_prefix(digits) else {
        return false;
    };
    rest == b" 0 0 0 0\nrate 0\n".as_slice()
}

// The agreed departures from the Rust, a row each: which cases it is about, and whether the library answered what is
// then due. None where the case is none of them.
#[tactic(auto, unfolding(crate::specs::Departures::agreed))]
fn agreed(
    alloc: Global,
    case: &[u8],
    oracle: &[u8],
    library: &[u8],
) -> Result<Option<bool>, AllocError>
    ensures { IfOk result (λ r. r ≡ agreed case.now oracle.now library.now) }
{
    let name = cases::name(case);
    // The Rust panics, or has no form for the case; the call is refused.
    if may_be_refused(name) && has_oracles_own_line(oracle) {
        return Ok(Some(is_refusal(name, library)));
    }
    // Modes that leave QPI clear bit 31 of 038, where the Rust keeps it.
    if leaves::has_modes(name) {
        let modes = modes::of(alloc, case)?;
        return Ok(Some(leaves::is_due(&modes, oracle, library)));
    }
    // At core rate 0 an opening is refused by 14, where the Rust has no core rate.
    if name == b"open".as_slice() && delays::no_core_rate(alloc, case)? {
        return Ok(Some(is_refused_opening(b"14", library)));
    }
    // An opening whose PLL has no eligible module clock is refused by 23, where the Rust opens.
    if name == b"open".as_slice() && no_clock::without_clock(alloc, case)? {
        return Ok(Some(is_refused_opening(b"23", library)));
    }
    // The delay records of a transaction have the cycles of the core rate, where the Rust halves the nanoseconds.
    if name == b"transaction".as_slice() {
        return Ok(Some(due::answered(alloc, case, oracle, library)?));
    }
    Ok(None)
}

// What the oracle answered to a case against what the library did.
#[tactic(auto, unfolding(crate::specs::Judged::judged))]
pub fn judge(
    alloc: Global,
    case: &[u8],
    oracle: &[u8],
    library: &[u8],
) -> Result<Verdict, AllocError>
    ensures { IfOk result (λ v. v ≡ judged case.now oracle.now library.now) }
{
    let same = oracle == library;
    let allowed = agreed(alloc, case, oracle, library)?.unwrap_or(same);
    Ok(match (allowed, same) {
        (true, true) => Verdict::Same,
        (true, false) => Verdict::Excluded,
        (false, _) => Verdict::Different,
    })
}
