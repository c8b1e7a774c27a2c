// The controller's registers.
ghost use Rattle.std.specs.Prelude.{◌≡◌};
ghost use Rattle.access.specs.Makes.{Makes};
ghost use Rattle.config.specs.declared.config.WorkMode.TheVariants.{ThreeWire};
ghost use Rattle.configure.specs.Steps.{clock_divider, controller_clock, controller_on, chip_select};
ghost use Rattle.configure.specs.Steps.{transfer_config, configure_work_mode, register_steps, fifo_steps};
ghost use Rattle.configure.specs.Of.{cs_ctrl_mode, bus_mode_in};

use access::{Act, RegisterBlock};
use clock::DividerSelect;
use config::{CsConfig, QspiConfig, QspiError, WorkMode};
use registers::{BusMode, CsCtrlMode, CtrlMode};
use setups::{controller, transfers};

#[tactic(auto, unfolding(crate::specs::Steps::clock_divider))]
fn set_divider(block: &mut RegisterBlock<'_>, divider: DividerSelect) -> Result<(), QspiError>
    ensures { Makes (clock_divider divider) block.old block.new result }
{
    match divider {
        DividerSelect::Cdr1(div) => controller::divide_by_1(block, div),
        DividerSelect::Cdr2(div) => controller::divide_by_2(block, div),
    }
}

// Resets the controller and sets its clock divider, before it is enabled.
fn configure_clock(block: &mut RegisterBlock<'_>, divider: DividerSelect) -> Result<(), QspiError>
    ensures { Makes (controller_clock divider) block.old block.new result }
{
    controller::reset(block)?;
    block.perform(Act::Delay(500))?;
    set_divider(block, divider)?;
    block.perform(Act::Delay(100))
}

// Clears the reset, enables the controller and disables all interrupts.
fn enable_controller(block: &mut RegisterBlock<'_>, mode: CtrlMode) -> Result<(), QspiError>
    ensures { Makes (controller_on mode) block.old block.new result }
{
    controller::enable(block, mode)?;
    controller::disable_interrupts(block)
}

// Without a chip-select record the chip select is the software's.
fn cs_ctrl_mode(cs_config: Option<CsConfig>) -> CsCtrlMode
    ensures { result ≡ cs_ctrl_mode cs_config }
{
    match cs_config {
        None => CsCtrlMode::Software,
        Some(_) => CsCtrlMode::SpiController,
    }
}

// The chip-select record, if there is one.
#[tactic(auto, unfolding(crate::specs::Steps::chip_select))]
fn select_chip(block: &mut RegisterBlock<'_>, cs_config: Option<CsConfig>) -> Result<(), QspiError>
    ensures { Makes (chip_select cs_config) block.old block.new result }
{
    match cs_config {
        None => Ok(()),
        Some(cs) => transfers::select_chip(block, cs.polarity, cs.level, cs.pin),
    }
}

// Phase, polarity, bit order and chip select, then the sampling of received data.
fn configure_transfer(
    block: &mut RegisterBlock<'_>,
    config: QspiConfig,
    slow: bool,
) -> Result<(), QspiError>
    ensures { Makes (transfer_config config.mode config.cs_config config.lsb_first slow) block.old block.new result }
{
    let mode = config.mode;
    let cs_ctrl_mode = cs_ctrl_mode(config.cs_config);
    transfers::format(
        block,
        mode.phase,
        mode.polarity,
        cs_ctrl_mode,
        config.lsb_first,
    )?;
    select_chip(block, config.cs_config)?;
    transfers::sample(block, slow)
}

fn bus_mode(bits: bool) -> BusMode
    ensures { result ≡ bus_mode_in bits }
{
    if bits {
        BusMode::StandardBits
    } else {
        BusMode::StandardBytes
    }
}

// Three-wire: in bytes, the transfer configuration is told too.
#[tactic(auto, unfolding(crate::specs::Steps::configure_work_mode, crate::specs::Steps::bus_mode))]
fn configure_three_wire(block: &mut RegisterBlock<'_>, bit_mode_en: bool) -> Result<(), QspiError>
    ensures { Makes (configure_work_mode ThreeWire bit_mode_en) block.old block.new result }
{
    if bit_mode_en {
        return transfers::set_bus_mode(block, BusMode::StandardBits);
    }
    transfers::set_bus_mode(block, BusMode::StandardBytes)?;
    changes::modes::set_three_wire(block, true)
}

#[tactic(auto, unfolding(crate::specs::Steps::configure_work_mode, crate::specs::Steps::bus_mode))]
fn configure_work_mode(
    block: &mut RegisterBlock<'_>,
    work_mode: WorkMode,
    bit_mode_en: bool,
) -> Result<(), QspiError>
    ensures { Makes (configure_work_mode work_mode bit_mode_en) block.old block.new result }
{
    match work_mode {
        WorkMode::Standard => transfers::set_bus_mode(block, bus_mode(bit_mode_en)),
        WorkMode::ThreeWire => configure_three_wire(block, bit_mode_en),
        WorkMode::Dual | WorkMode::DualIO => transfers::enable_dual(block),
        WorkMode::Quad | WorkMode::QuadIO => transfers::enable_quad(block),
        WorkMode::Qpi => transfers::enable_qpi(block),
    }
}

// Everything but the FIFOs.
pub fn configure_registers(
    block: &mut RegisterBlock<'_>,
    config: QspiConfig,
    divider: DividerSelect,
    sck_hz: u32,
    osc_hz: u32,
) -> Result<(), QspiError>
    ensures { Makes (register_steps config divider sck_hz osc_hz) block.old block.new result }
{
    configure_clock(block, divider)?;
    enable_controller(block, config.ctrl_mode)?;
    let slow = sck_hz <= osc_hz;
    configure_transfer(block, config, slow)?;
    configure_work_mode(block, config.work_mode, config.bit_mode_en)
}

// Resets both FIFOs, sets their watermarks, and clears stale interrupt status.
pub fn init_fifos(block: &mut RegisterBlock<'_>) -> Result<(), QspiError>
    ensures { Makes fifo_steps block.old block.new result }
{
    controller::reset_fifos(block)?;
    block.perform(Act::Delay(100))?;
    controller::clear_interrupts(block)
}
