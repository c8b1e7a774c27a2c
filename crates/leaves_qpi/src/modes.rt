// The modes that a case's call runs.
ghost use Rattle.std.specs.Prelude.{◌≡◌, ◌%◌, ◌≤◌, ◌+◌, ◌*◌, ◌/◌, ◌++◌, get_or, length, IfOk};
ghost use Rattle.leaves_qpi.specs.Modes.{sheet_byte, sheet_word, record_word, record_modes, first_record};
ghost use Rattle.leaves_qpi.specs.Modes.{sheet_modes, modes_of};

use std::alloc::{AllocError, Global};

// A byte of a sheet.
fn sheet_byte(numbers: &[u32], i: usize) -> u8
    requires { i ≤ 2 * length numbers.now + 64 }
    ensures { result ≡ sheet_byte numbers.now i }
{
    match numbers.get(i + 2) {
        Some(byte) => (*byte % 256) as u8,
        None => 0,
    }
}

fn sheet_word(numbers: &[u32], i: usize) -> u32
    requires { i ≤ 2 * length numbers.now + 60 }
    ensures { result ≡ sheet_word numbers.now i }
{
    u32::from_le_bytes([
        sheet_byte(numbers, i),
        sheet_byte(numbers, i + 1),
        sheet_byte(numbers, i + 2),
        sheet_byte(numbers, i + 3),
    ])
}

// Word `n` of the record after so many others.
fn record_word(numbers: &[u32], before: usize, n: usize) -> u32
    requires before { before ≤ length numbers.now / 32 }
    requires n { n ≤ 7 }
    ensures { result ≡ record_word numbers.now before n }
{
    sheet_word(numbers, 20 + 32 * before + 4 * n)
}

// Adds the modes of a record.
#[tactic(auto, unfolding(crate::specs::Modes::record_modes))]
fn push_record(modes: &mut Vec<bool>, numbers: &[u32], before: usize) -> Result<(), AllocError>
    requires { before ≤ length numbers.now / 32 }
    ensures { IfOk result (λ u. modes.new.items ≡ modes.old.items ++ record_modes numbers.now before) }
{
    match record_word(numbers, before, 0) {
        7 => modes.push(record_word(numbers, before, 1) != 6)?,
        8 | 9 => {
            modes.push(true)?;
            modes.push(true)?;
        }
        _ => {}
    }
    Ok(())
}

// The number of the record that a sheet's chain begins with, or 0.
fn first_record(numbers: &[u32]) -> usize
    ensures { result ≡ first_record numbers.now }
{
    if sheet_word(numbers, 12) == 0 { 0 } else { 1 }
}

// Those of the records on a sheet's chain.
fn of_sheet(alloc: Global, numbers: &[u32]) -> Result<Vec<bool>, AllocError>
    ensures { IfOk result (λ v. v.items ≡ sheet_modes numbers.now) }
{
    let mut modes = Vec::new(alloc);
    let mut on = first_record(numbers);
    for before in 0..numbers.len() / 32 + 1 {
        if on != before + 1 {
            continue;
        }
        push_record(&mut modes, numbers, before)?;
        on = record_word(numbers, before, 7) as usize;
    }
    Ok(modes)
}

// The modes of a case's call, which has some: whether each leaves QPI.
#[tactic(auto, unfolding(crate::specs::Modes::modes_of))]
pub fn of(alloc: Global, case: &[u8]) -> Result<Vec<bool>, AllocError>
    ensures { IfOk result (λ v. v.items ≡ modes_of case.now) }
{
    let name = cases::name(case);
    let numbers = cases::numbers(alloc, case)?;
    if name == b"mode".as_slice() {
        return vec![in alloc; numbers.get(3) != Some(&6); 1];
    }
    if name == b"sheet".as_slice() {
        return of_sheet(alloc, &numbers);
    }
    vec![in alloc; true; 2]
}
