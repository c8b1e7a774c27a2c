// The answer that is due to a transaction.
ghost use Rattle.std.specs.Prelude.{◌≡◌, ◌*◌, ◌<◌, ◌≤◌, IfOk, length, bytes_eq};
ghost use Rattle.core_delays.specs.Due.{delay_line, delays_before, digit, due_byte, with_cycles, due};
ghost use Rattle.cases.specs.Number.{numbers_of};

use super::delays;
use config::QspiError;
use std::alloc::{AllocError, Global};

// A delay record's line begins here.
#[tactic(auto, unfolding(crate::specs::Due::delay_line))]
fn delay_line(text: &[u8], s: usize) -> bool
    requires { s ≤ length text.now }
    ensures { result ≡ delay_line text.now s }
{
    text[s..].starts_with(b"d 0000 ") && !(s >= 16 && text[s - 16..].starts_with(b"w 0018 "))
}

// How many are among the first lines.
fn delays_before(text: &[u8], lines: usize) -> usize
    requires { 16 * lines ≤ length text.now }
    ensures { result ≡ delays_before text.now lines }
{
    (0..lines).filter(|k| delay_line(text, 16 * *k)).count()
}

// The digit at a place of a word, from the highest at place 0.
#[tactic(auto, unfolding(crate::specs::Due::digit))]
fn digit(word: u32, j: usize) -> u8
    requires { j < 8 }
    ensures { result ≡ digit word j }
{
    let d = ((word >> (28 - 4 * j)) % 16) as u8;
    if d < 10 { b'0' + d } else { b'a' - 10 + d }
}

// The byte that is due at a place.
#[tactic(auto, unfolding(crate::specs::Due::due_byte))]
fn due_byte(cycles: &[u32], text: &[u8], i: usize) -> u8
    requires { i < length text.now }
    ensures { result ≡ due_byte cycles.now text.now i }
{
    let at = i % 16;
    if at >= 7 && at < 15 && delay_line(text, i - at) {
        let nth = delays_before(text, i / 16);
        digit(cycles.get(nth).copied().unwrap_or(0), at - 7)
    } else {
        text[i]
    }
}

// The text with these cycles in its delay records.
fn with_cycles(alloc: Global, cycles: &[u32], text: &[u8]) -> Result<Vec<u8>, AllocError>
    ensures { IfOk result (λ v. v.items ≡ with_cycles cycles.now text.now) }
{
    (0..text.len())
        .map(|i| due_byte(cycles, text, i))
        .collect(alloc)
}

// Is the library's answer to a transaction the one that is due?
#[tactic(auto, unfolding(crate::specs::Due::due))]
pub fn answered(
    alloc: Global,
    case: &[u8],
    oracle: &[u8],
    library: &[u8],
) -> Result<bool, AllocError>
    ensures { IfOk result (λ b. b ≡ bytes_eq (due (numbers_of case.now) oracle.now) library.now) }
{
    let numbers = cases::numbers(alloc, case)?;
    let words = delays::words(&numbers);
    let rules = delays::rules(&numbers);
    let memory = delays::memory(&numbers);
    match records::check(words, rules, memory) {
        Ok(()) => {
            let cycles = delays::along(alloc, words, rules, memory)?;
            let due = with_cycles(alloc, &cycles, oracle)?;
            Ok(due.as_slice() == library)
        }
        Err(fault) if fault.error == QspiError::Cycles => Ok(
            library == b"end 14 0 0 0 0\n".as_slice(),
        ),
        Err(_) => Ok(oracle == library),
    }
}
