// The text of a list of cases: where a case ends, the name and the numbers of its line, and where a byte is.
#![tactic(auto)]

ghost use Rattle.std.specs.Prelude.{◌≡◌, ◌+◌, ◌≤◌, ◌<◌, length, option_map, IfSome, IfOk};
ghost use Rattle.cases.specs.Number.{digit_of, step, value_of, number_of, numbers_of};
ghost use Rattle.cases.specs.Ends.{ends_at, end_from};
ghost use Rattle.cases.specs.Find.{index_of, part_of, name_of};

use std::alloc::{AllocError, Global};

// The value of a hexadecimal digit, in lower case.
fn digit(b: u8) -> Option<u32>
    ensures { result ≡ digit_of b }
{
    match b {
        b'0'..=b'9' => Some(u32::from(b) - 48),
        b'a'..=b'f' => Some(u32::from(b) - 87),
        _ => None,
    }
}

// The value with one more digit, if it has 32 bits.
fn longer(value: u32, base: u32, b: u8) -> Option<u32>
    ensures { result ≡ step base value b }
{
    let d = digit(b)?;
    if d >= base {
        return None;
    }
    value.checked_mul(base)?.checked_add(d)
}

// The number that digits spell in a base.
fn value(digits: &[u8], base: u32) -> Option<u32>
    ensures { result ≡ value_of base 0 digits.now }
{
    let mut value = 0;
    for b in digits {
        value = longer(value, base, *b)?;
    }
    Some(value)
}

// The number that a word is, decimal or with 0x; none for any other word, and for a number that has more than 32 bits.
pub fn number(word: &[u8]) -> Option<u32>
    ensures { result ≡ number_of word.now }
{
    match word {
        [] => None,
        [b'0', b'x', _, ..] => value(&word[2..], 16),
        _ => value(word, 10),
    }
}

// A line end, and a line with one full stop.
fn ends_at(text: &[u8], i: usize) -> bool
    requires { i ≤ length text.now }
    ensures { result ≡ ends_at text.now i }
{
    text[i..].starts_with(b"\n.\n")
}

// The place at or after `from` where a case and its answer end: the line end before the full stop.
pub fn case_end(text: &[u8], from: usize) -> Option<usize>
    requires { from ≤ length text.now }
    ensures value { result ≡ end_from text.now from }
    ensures bounds { IfSome result (λ i. (from ≤ i) × (i + 3 ≤ length text.now)) }
{
    (from..text.len()).find(|i| ends_at(text, *i))
}

// The place of the first such byte of text from `from` on and before `to`.
pub fn find(text: &[u8], from: usize, to: usize, byte: u8) -> Option<usize>
    requires from_le_to { from ≤ to }
    requires to_in_bounds { to ≤ length text.now }
    ensures place { result ≡ option_map (λ k. from + k) (index_of byte (part_of from to text.now)) }
    ensures bounds { IfSome result (λ i. (from ≤ i) × (i < to)) }
{
    text[from..to]
        .iter()
        .position(|b| *b == byte)
        .map(|k| from + k)
}

// The first word of a line: what stands before its first blank.
pub fn name(line: &[u8]) -> &[u8]
    ensures { result.now ≡ name_of line.now }
{
    match find(line, 0, line.len(), b' ') {
        Some(end) => &line[..end],
        None => line,
    }
}

// The numbers of a case's line, after its name; 0 for a word that is none.
pub fn numbers(alloc: Global, case: &[u8]) -> Result<Vec<u32>, AllocError>
    ensures { IfOk result (λ v. v.items ≡ numbers_of case.now) }
{
    case.split(|b| *b == b' ')
        .skip(1)
        .map(|word| number(word).unwrap_or(0))
        .collect(alloc)
}
