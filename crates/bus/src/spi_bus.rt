// The bus trait's calls.
ghost use Rattle.bus.specs.Calls.{Call};
ghost use Rattle.access.specs.Does.{Sound};
ghost use Rattle.bus.specs.Does.{Called, CalledOn, CalledFrom, CalledOnFrom};
ghost use Rattle.std.specs.Prelude.{length};

use super::refusal;
use access::{Progress, RegisterBlock};

// Writes all the words on a single line.
#[tactic(auto, using(crate::proofs::Entry::called_begun))]
pub fn write(limit: u32, log: &mut [u32], answers: &[u32], words: &[u8]) -> Progress
    ensures { Called (Call.write words.now) limit answers.now log.old result log.new }
{
    write_on(Progress::new(), limit, log, answers, words)
}

// The same from a progress on.
#[inline(always)]
pub fn write_on(
    progress: Progress,
    limit: u32,
    log: &mut [u32],
    answers: &[u32],
    words: &[u8],
) -> Progress
    requires { Sound progress }
    ensures { CalledFrom progress (Call.write words.now) limit answers.now log.old result log.new }
{
    let limit = match refusal::resumed(progress, limit, words.len(), 0) {
        Ok(limit) => limit,
        Err(error) => return refusal::ended_by(progress, error),
    };
    let mut block = RegisterBlock::resumed(limit, log, answers, progress);
    let ended = qspi::phase::tx_phase(&mut block, words, true);
    block.progress(ended)
}

// Reads as many words as there is room for.
pub fn read(limit: u32, log: &mut [u32], answers: &[u32], words: &mut [u8]) -> Progress
    ensures { CalledOn (Call.read (length words.old)) limit answers.now log.old words.old result log.new words.new }
{
    read_on(Progress::new(), limit, log, answers, words)
}

// The same from a progress on.
#[inline(always)]
pub fn read_on(
    progress: Progress,
    limit: u32,
    log: &mut [u32],
    answers: &[u32],
    words: &mut [u8],
) -> Progress
    requires { Sound progress }
    ensures { CalledOnFrom progress (Call.read (length words.old)) limit answers.now log.old words.old result log.new words.new }
{
    let limit = match refusal::resumed(progress, limit, words.len(), 0) {
        Ok(limit) => limit,
        Err(error) => return refusal::ended_by(progress, error),
    };
    let mut block = RegisterBlock::resumed(limit, log, answers, progress);
    let ended = qspi::phase::rx_phase(&mut block, words);
    block.progress(ended)
}

// Writes all of `write`, then reads all of `read`.
pub fn transfer(
    limit: u32,
    log: &mut [u32],
    answers: &[u32],
    read: &mut [u8],
    write: &[u8],
) -> Progress
    ensures { CalledOn (Call.transfer write.now (length read.old)) limit answers.now log.old read.old result log.new read.new }
{
    transfer_on(Progress::new(), limit, log, answers, read, write)
}

// The same from a progress on.
#[inline(always)]
pub fn transfer_on(
    progress: Progress,
    limit: u32,
    log: &mut [u32],
    answers: &[u32],
    read: &mut [u8],
    write: &[u8],
) -> Progress
    requires { Sound progress }
    ensures { CalledOnFrom progress (Call.transfer write.now (length read.old)) limit answers.now log.old read.old result log.new read.new }
{
    let limit = match refusal::resumed(progress, limit, write.len(), read.len()) {
        Ok(limit) => limit,
        Err(error) => return refusal::ended_by(progress, error),
    };
    let mut block = RegisterBlock::resumed(limit, log, answers, progress);
    let ended = transfer::transfer(&mut block, read, write);
    block.progress(ended)
}

// Writes and reads back `words`, by parts; no length is refused.
pub fn transfer_in_place(limit: u32, log: &mut [u32], answers: &[u32], words: &mut [u8]) -> Progress
    ensures { CalledOn (Call.transfer_in_place (length words.old)) limit answers.now log.old words.old result log.new words.new }
{
    transfer_in_place_on(Progress::new(), limit, log, answers, words)
}

// The same from a progress on.
#[inline(always)]
pub fn transfer_in_place_on(
    progress: Progress,
    limit: u32,
    log: &mut [u32],
    answers: &[u32],
    words: &mut [u8],
) -> Progress
    requires { Sound progress }
    ensures { CalledOnFrom progress (Call.transfer_in_place (length words.old)) limit answers.now log.old words.old result log.new words.new }
{
    let limit = match refusal::resumed(progress, limit, 0, 0) {
        Ok(limit) => limit,
        Err(error) => return refusal::ended_by(progress, error),
    };
    let mut block = RegisterBlock::resumed(limit, log, answers, progress);
    let ended = transfer::transfer_in_place(&mut block, words);
    block.progress(ended)
}

// Waits for the transfer to complete.
#[tactic(auto, using(crate::proofs::Entry::called_begun))]
pub fn flush(limit: u32, log: &mut [u32], answers: &[u32]) -> Progress
    ensures { Called Call.flush limit answers.now log.old result log.new }
{
    flush_on(Progress::new(), limit, log, answers)
}

// The same from a progress on.
#[inline(always)]
pub fn flush_on(progress: Progress, limit: u32, log: &mut [u32], answers: &[u32]) -> Progress
    requires { Sound progress }
    ensures { CalledFrom progress Call.flush limit answers.now log.old result log.new }
{
    let limit = match refusal::resumed(progress, limit, 0, 0) {
        Ok(limit) => limit,
        Err(error) => return refusal::ended_by(progress, error),
    };
    let mut block = RegisterBlock::resumed(limit, log, answers, progress);
    let ended = waits::wait_transfer_done(&mut block);
    block.progress(ended)
}
