// The work mode of a bus.
ghost use Rattle.bus.specs.Calls.{Call};
ghost use Rattle.access.specs.Does.{Sound};
ghost use Rattle.bus.specs.Does.{Called, CalledFrom};

use super::refusal;
use access::{Progress, RegisterBlock};
use config::WorkMode;

// Waits for the transfer to complete, then changes the mode. `qpi`: the chip has QPI.
#[tactic(auto, using(crate::proofs::Entry::called_begun))]
pub fn set_work_mode(
    limit: u32,
    qpi: bool,
    log: &mut [u32],
    answers: &[u32],
    mode: WorkMode,
) -> Progress
    ensures { Called (Call.set_work_mode qpi mode) limit answers.now log.old result log.new }
{
    set_work_mode_on(Progress::new(), limit, qpi, log, answers, mode)
}

// The same from a progress on.
#[inline(always)]
pub fn set_work_mode_on(
    progress: Progress,
    limit: u32,
    qpi: bool,
    log: &mut [u32],
    answers: &[u32],
    mode: WorkMode,
) -> Progress
    requires { Sound progress }
    ensures { CalledFrom progress (Call.set_work_mode qpi mode) limit answers.now log.old result log.new }
{
    let limit = match refusal::resumed(progress, limit, 0, 0) {
        Ok(limit) => limit,
        Err(error) => return refusal::ended_by(progress, error),
    };
    let mut block = RegisterBlock::resumed(limit, log, answers, progress);
    let ended = mode::set_work_mode(&mut block, qpi, mode);
    block.progress(ended)
}
