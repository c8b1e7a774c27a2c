// The cycles of the delay records that a case's transaction runs.
ghost use Rattle.std.specs.Prelude.{◌≡◌, ◌++◌, Ok, IfOk, get_or, length, drop, eqb};
ghost use Rattle.records.specs.Check.{checked, verdict, chain_of};
ghost use Rattle.cases.specs.Number.{numbers_of};
ghost use Rattle.core_delays.specs.Delays.{rules_of, words_of, memory_of, opening_rate, record_cycles, chain_cycles};

use records::Rules;
use std::alloc::{AllocError, Global};

// A number of a case's line; 0 where it has not so many.
fn number(numbers: &[u32], i: usize) -> u32
    ensures { result ≡ get_or numbers.now i 0 }
{
    numbers.get(i).copied().unwrap_or(0)
}

// The rules of the core rate in a case's line.
pub fn rules(numbers: &[u32]) -> Rules
    ensures { result ≡ rules_of numbers.now }
{
    Rules::Transaction {
        core_hz: number(numbers, 2),
    }
}

// The core rate in the line of an opening is 0.
pub fn no_core_rate(alloc: Global, case: &[u8]) -> Result<bool, AllocError>
    ensures { IfOk result (λ b. b ≡ eqb (opening_rate (numbers_of case.now)) 0) }
{
    let numbers = cases::numbers(alloc, case)?;
    Ok(number(&numbers, 13) == 0)
}

// What follows the count of words: the words of the records, and the memory's length.
fn records(numbers: &[u32]) -> &[u32]
    ensures { result.now ≡ drop 4 numbers.now }
{
    numbers.get(4..).unwrap_or(&[])
}

// The words of the records in a case's line.
pub fn words(numbers: &[u32]) -> &[u32]
    ensures { result.now ≡ words_of numbers.now }
{
    let rest = records(numbers);
    &rest[..rest.len().min(number(numbers, 3) as usize)]
}

// The length of the memory in a case's line.
pub fn memory(numbers: &[u32]) -> usize
    ensures { result ≡ memory_of numbers.now }
{
    number(records(numbers), number(numbers, 3) as usize) as usize
}

// Adds the cycles of a record.
#[tactic(auto, unfolding(crate::specs::Delays::record_cycles))]
fn push_record(cycles: &mut Vec<u32>, rules: Rules, r: [u32; 8]) -> Result<(), AllocError>
    ensures { IfOk result (λ u. cycles.new.items ≡ cycles.old.items ++ record_cycles rules r) }
{
    if r[0] == 5 {
        cycles.push(rules.cycles(r[1]).unwrap_or(0))?;
    }
    Ok(())
}

// Those along a chain in which no fault was found.
pub fn along(
    alloc: Global,
    words: &[u32],
    rules: Rules,
    memory: usize,
) -> Result<Vec<u32>, AllocError>
    requires { verdict (checked rules memory words.now) ≡ Ok tt }
    ensures { IfOk result (λ v. v.items ≡ chain_cycles rules (chain_of (checked rules memory words.now))) }
{
    let mut cycles = Vec::new(alloc);
    if words.len() / 8 == 0 {
        return Ok(cycles);
    }
    let mut own = 1;
    loop {
        let r = records::record_at(words, own);
        push_record(&mut cycles, rules, r)?;
        let next = r[7] as usize;
        if next == 0 {
            return Ok(cycles);
        }
        own = next;
    }
}
