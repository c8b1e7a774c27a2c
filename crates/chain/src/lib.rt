// Chains of records: checked whole, and run once they are.
#![tactic(auto)]

ghost use Rattle.std.specs.Prelude.{◌≡◌, Ok, length};
ghost use Rattle.std.specs.Int.NonZero.{non_zero_u32_get};
ghost use Rattle.records.specs.Check.{verdict, chain_of};
ghost use Rattle.access.specs.Goes.{GoesOn};
ghost use Rattle.chain.specs.Chain.{chain_steps};
ghost use Rattle.chain.specs.Transaction.{found_in, first_fault, Checks, Transacts};
ghost use Rattle.chain.specs.Transaction.{transaction as Transaction·transaction};
ghost use Rattle.chain.specs.Of.{request_of};

use access::{Progress, RegisterBlock};
use config::QspiError;
use records::{Fault, Record, Rules};
use std::num::NonZeroU32;

pub mod record;
pub mod request;

pub use request::{Request, Settings};

// Goes along a chain in which no fault was found, and runs each record.
fn run_chain(
    block: &mut RegisterBlock<'_>,
    memory: &mut [u8],
    request: Request<'_>,
) -> Result<(), QspiError>
    requires { verdict (found_in (request_of request) (length memory.old)) ≡ Ok tt }
    ensures { GoesOn (chain_steps request.entry.settings (chain_of (found_in (request_of request.entry) (length memory.old)))) block.old memory.old block.new memory.new result }
{
    let words = request.words;
    if words.len() / 8 == 0 {
        return Ok(());
    }
    let mut own: usize = 1;
    loop {
        let r = records::record_at(words, own);
        let record = Record::of(r).unwrap();
        record::run_record(block, memory, request.settings, record)?;
        let next = r[7] as usize;
        if next == 0 {
            return Ok(());
        }
        own = next;
    }
}

// The check of a chain, which runs nothing: 7, at no record, then the first fault along the chain; else the limit.
pub fn check(limit: u32, request: Request<'_>, memory: usize) -> Result<NonZeroU32, Fault>
    ensures { Checks limit (first_fault limit (found_in (request_of request.entry) memory)) result }
{
    let Some(limit) = NonZeroU32::new(limit) else {
        return Err(Fault {
            error: QspiError::Limit,
            record: 0,
        });
    };
    match records::check(request.words, request.settings.rules, memory) {
        Ok(()) => Ok(limit),
        Err(fault) => Err(fault),
    }
}

// The run of a chain in which the check found nothing.
pub fn run(
    limit: NonZeroU32,
    log: &mut [u32],
    answers: &[u32],
    memory: &mut [u8],
    request: Request<'_>,
) -> Progress
    requires { first_fault (non_zero_u32_get limit) (found_in (request_of request) (length memory.old)) ≡ Ok tt }
    ensures { Transacts (request_of request.entry) (non_zero_u32_get limit) answers.now log.old memory.old result log.new memory.new }
{
    let mut block = RegisterBlock::new(limit, log, answers);
    let ended = run_chain(&mut block, memory, request);
    block.progress(ended)
}

// A chain: the whole of it is checked before any access.
pub fn transact(
    limit: u32,
    log: &mut [u32],
    answers: &[u32],
    memory: &mut [u8],
    request: Request<'_>,
) -> Progress
    ensures { Transacts (request_of request.entry) limit answers.now log.old memory.old result log.new memory.new }
{
    match check(limit, request, memory.len()) {
        Ok(limit) => run(limit, log, answers, memory, request),
        Err(fault) => Progress::refused(fault.error),
    }
}

// Operations on the lent memory, one after the other: a chain of kinds 1 to 5, whose delays go by the core rate.
pub fn transaction(
    limit: u32,
    core_hz: u32,
    log: &mut [u32],
    answers: &[u32],
    memory: &mut [u8],
    words: &[u32],
) -> Progress
    ensures { Transacts (Transaction·transaction core_hz words.now) limit answers.now log.old memory.old result log.new memory.new }
{
    let settings = Settings {
        rate: 0,
        qpi: false,
        rules: Rules::Transaction { core_hz },
    };
    transact(limit, log, answers, memory, Request { settings, words })
}
