// The quad calls of the bus.
ghost use Rattle.bus.specs.Calls.{Call};
ghost use Rattle.access.specs.Does.{Sound};
ghost use Rattle.bus.specs.Does.{Called, CalledOn, CalledFrom, CalledOnFrom};
ghost use Rattle.std.specs.Prelude.{length};

use super::refusal;
use access::{Progress, RegisterBlock};

// Reads `data` on four lines, after `command` and its dummy bytes on one. `hz`: the bus's rate. Only the data's length is tested.
pub fn read_quad(
    limit: u32,
    log: &mut [u32],
    answers: &[u32],
    hz: u32,
    command: &[u8],
    tclqv_ns: u32,
    margin: u8,
    data: &mut [u8],
) -> Progress
    ensures { CalledOn (Call.read_quad hz command.now tclqv_ns margin (length «data».old)) limit answers.now log.old «data».old result log.new «data».new }
{
    read_quad_on(
        Progress::new(),
        limit,
        log,
        answers,
        hz,
        command,
        tclqv_ns,
        margin,
        data,
    )
}

// The same from a progress on.
#[inline(always)]
pub fn read_quad_on(
    progress: Progress,
    limit: u32,
    log: &mut [u32],
    answers: &[u32],
    hz: u32,
    command: &[u8],
    tclqv_ns: u32,
    margin: u8,
    data: &mut [u8],
) -> Progress
    requires { Sound progress }
    ensures { CalledOnFrom progress (Call.read_quad hz command.now tclqv_ns margin (length «data».old)) limit answers.now log.old «data».old result log.new «data».new }
{
    let limit = match refusal::resumed(progress, limit, data.len(), 0) {
        Ok(limit) => limit,
        Err(error) => return refusal::ended_by(progress, error),
    };
    let mut block = RegisterBlock::resumed(limit, log, answers, progress);
    let ended = quad::read_quad(&mut block, hz, command, tclqv_ns, margin, data);
    block.progress(ended)
}

// Writes `data` on four lines, after `command` on one.
#[tactic(auto, using(crate::proofs::Entry::called_begun))]
pub fn write_quad(
    limit: u32,
    log: &mut [u32],
    answers: &[u32],
    command: &[u8],
    data: &[u8],
) -> Progress
    ensures { Called (Call.write_quad command.now «data».now) limit answers.now log.old result log.new }
{
    write_quad_on(Progress::new(), limit, log, answers, command, data)
}

// The same from a progress on.
#[inline(always)]
pub fn write_quad_on(
    progress: Progress,
    limit: u32,
    log: &mut [u32],
    answers: &[u32],
    command: &[u8],
    data: &[u8],
) -> Progress
    requires { Sound progress }
    ensures { CalledFrom progress (Call.write_quad command.now «data».now) limit answers.now log.old result log.new }
{
    let limit = match refusal::resumed(progress, limit, command.len(), data.len()) {
        Ok(limit) => limit,
        Err(error) => return refusal::ended_by(progress, error),
    };
    let mut block = RegisterBlock::resumed(limit, log, answers, progress);
    let ended = quad::write_quad(&mut block, command, data);
    block.progress(ended)
}
