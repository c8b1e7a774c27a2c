// The quad calls, from blocking.rs: a command on a single line, then data on four.
#![tactic(auto)]

ghost use Rattle.std.specs.Prelude.{false, ◌^◌, ◌<◌, length, take};
ghost use Rattle.qspi.specs.Phases.{tx_phase, rx_phase};
ghost use Rattle.clock.specs.Dummies.{dummies};
ghost use Rattle.access.specs.Goes.{Goes, GoesOn};
ghost use Rattle.quad.specs.Quad.{framed, quad_start, quad_steps};
ghost use Rattle.quad.specs.Frames.{Closes};

use access::RegisterBlock;
use config::{QspiError, WorkMode};

pub mod frame;

pub use frame::QuadFrame;

// The command on a single line, then mode Quad.
fn quad_start(block: &mut RegisterBlock<'_>, command: &[u8]) -> Result<(), QspiError>
    requires { length command.now < 2 ^ 24 }
    ensures { Goes (quad_start command.now) block.old block.new result }
{
    qspi::phase::tx_phase(block, command, true)?;
    mode::set_work_mode(block, false, WorkMode::Quad)
}

// Mode Standard, also after data that failed; its own failure wins.
fn quad_end(block: &mut RegisterBlock<'_>, ended: Result<(), QspiError>) -> Result<(), QspiError>
    ensures { Closes ended block.old block.new result }
{
    mode::set_work_mode(block, false, WorkMode::Standard)?;
    ended
}

// Reads `data` on four lines after a frame on one.
pub fn read_framed(
    block: &mut RegisterBlock<'_>,
    frame: QuadFrame,
    data: &mut [u8],
) -> Result<(), QspiError>
    requires { length «data».old < 2 ^ 24 }
    ensures { GoesOn (quad_steps (take frame.length frame.bytes) (rx_phase 0 (length «data».old))) block.old «data».old block.new «data».new result }
{
    quad_start(block, &frame.bytes[..frame.length])?;
    let ended = qspi::phase::rx_phase(block, data);
    quad_end(block, ended)
}

// Reads `data` on four lines, after `command` and its dummy bytes on one. `hz`: the bus's rate.
pub fn read_quad(
    block: &mut RegisterBlock<'_>,
    hz: u32,
    command: &[u8],
    tclqv_ns: u32,
    margin: u8,
    data: &mut [u8],
) -> Result<(), QspiError>
    requires { length «data».old < 2 ^ 24 }
    ensures { GoesOn (quad_steps (framed command.now (dummies hz tclqv_ns margin)) (rx_phase 0 (length «data».old))) block.old «data».old block.new «data».new result }
{
    let dummies = clock::dummy_bytes_for(hz, tclqv_ns, margin);
    read_framed(block, QuadFrame::new(command, dummies), data)
}

// Writes `data` on four lines, after `command` on one.
pub fn write_quad(
    block: &mut RegisterBlock<'_>,
    command: &[u8],
    data: &[u8],
) -> Result<(), QspiError>
    requires { (length command.now < 2 ^ 24) × (length «data».now < 2 ^ 24) }
    ensures { Goes (quad_steps command.now (tx_phase false «data».now)) block.old block.new result }
{
    quad_start(block, command)?;
    let ended = qspi::phase::tx_phase(block, data, false);
    quad_end(block, ended)
}
