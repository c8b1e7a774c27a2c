// The work mode of a bus, from blocking.rs.
#![tactic(auto)]

ghost use Rattle.std.specs.Prelude.{◌≡◌};
ghost use Rattle.access.specs.Makes.{Makes};
ghost use Rattle.access.specs.Goes.{Goes};
ghost use Rattle.mode.specs.Mode.{qpi_mode, mode_changes, work_mode_steps};
ghost use Rattle.mode.specs.Of.{data_lines, three_wire};

use access::RegisterBlock;
use changes::Lines;
use config::{QspiError, WorkMode};

// The data lines of a mode.
fn data_lines(mode: WorkMode) -> Lines
    ensures { result ≡ data_lines mode }
{
    match mode {
        WorkMode::Standard | WorkMode::ThreeWire => Lines::One,
        WorkMode::Dual | WorkMode::DualIO => Lines::Two,
        WorkMode::Quad | WorkMode::QuadIO => Lines::Four,
        WorkMode::Qpi => Lines::Qpi,
    }
}

// Three-wire or not.
fn three_wire(mode: WorkMode) -> bool
    ensures { result ≡ three_wire mode }
{
    matches!(mode, WorkMode::ThreeWire)
}

// 2 on a chip without QPI.
fn set_qpi_mode(block: &mut RegisterBlock<'_>, qpi: bool) -> Result<(), QspiError>
    ensures { Makes (qpi_mode qpi) block.old block.new result }
{
    if qpi {
        changes::modes::set_lines(block, Lines::Qpi)
    } else {
        Err(QspiError::Unsupported)
    }
}

// What a mode changes. `qpi`: the chip has QPI.
fn change_mode(block: &mut RegisterBlock<'_>, qpi: bool, mode: WorkMode) -> Result<(), QspiError>
    ensures { Makes (mode_changes qpi mode) block.old block.new result }
{
    if mode.is_qpi() {
        return set_qpi_mode(block, qpi);
    }
    changes::modes::set_lines(block, data_lines(mode))?;
    changes::modes::set_three_wire(block, three_wire(mode))
}

// Waits for the transfer to complete, then changes the mode. `qpi`: the chip has QPI.
pub fn set_work_mode(
    block: &mut RegisterBlock<'_>,
    qpi: bool,
    mode: WorkMode,
) -> Result<(), QspiError>
    ensures { Goes (work_mode_steps qpi mode) block.old block.new result }
{
    waits::wait_transfer_done(block)?;
    change_mode(block, qpi, mode)
}
