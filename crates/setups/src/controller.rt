// The controller: its reset and mode, its clock divider, its interrupts and its FIFOs.
ghost use Rattle.model.specs.Steps.{change};
ghost use Rattle.access.specs.Makes.{Makes};
ghost use Rattle.setups.specs.Of.{controller_reset, divided_by_1, divided_by_2, controller_on};
ghost use Rattle.setups.specs.Of.{interrupts_off, fifos_reset, interrupts_cleared};

use access::RegisterBlock;
use config::QspiError;
use registers::{ClkConfig, ClockDivSel, Config, CtrlMode, FifoControl, IntControl, IntStatus};

const DEFAULT_TX_WATERMARK: u8 = 32;

const DEFAULT_RX_WATERMARK: u8 = 32;

// Reset.
pub fn reset(block: &mut RegisterBlock<'_>) -> Result<(), QspiError>
    ensures { Makes (change 0x004 controller_reset) block.old block.new result }
{
    block.modify(0x004, |word| Config(word).set_ctrl_rst(true).0)
}

// Clock divider 1.
pub fn divide_by_1(block: &mut RegisterBlock<'_>, div: u8) -> Result<(), QspiError>
    ensures { Makes (change 0x024 (divided_by_1 div)) block.old block.new result }
{
    block.modify(0x024, |word| {
        ClkConfig(word)
            .set_clock_divider_selection(ClockDivSel::Div1)
            .set_clk_div_1(div)
            .0
    })
}

// Clock divider 2.
pub fn divide_by_2(block: &mut RegisterBlock<'_>, div: u8) -> Result<(), QspiError>
    ensures { Makes (change 0x024 (divided_by_2 div)) block.old block.new result }
{
    block.modify(0x024, |word| {
        ClkConfig(word)
            .set_clock_divider_selection(ClockDivSel::Div2)
            .set_clk_div_2(div)
            .0
    })
}

// Out of its reset and enabled.
pub fn enable(block: &mut RegisterBlock<'_>, mode: CtrlMode) -> Result<(), QspiError>
    ensures { Makes (change 0x004 (controller_on mode)) block.old block.new result }
{
    block.modify(0x004, |word| {
        Config(word)
            .set_ctrl_mode(mode)
            .set_ctrl_rst(false)
            .enable_ctrl()
            .enable_rx_full_stop()
            .0
    })
}

// All interrupts disabled.
pub fn disable_interrupts(block: &mut RegisterBlock<'_>) -> Result<(), QspiError>
    ensures { Makes (change 0x010 interrupts_off) block.old block.new result }
{
    block.modify(0x010, |word| IntControl(word).disable_all_int().0)
}

// Both FIFOs reset, with their watermarks.
pub fn reset_fifos(block: &mut RegisterBlock<'_>) -> Result<(), QspiError>
    ensures { Makes (change 0x018 fifos_reset) block.old block.new result }
{
    block.modify(0x018, |word| {
        FifoControl(word)
            .reset_tx_fifo()
            .reset_rx_fifo()
            .set_tx_fifo_water_mark(DEFAULT_TX_WATERMARK)
            .set_rx_fifo_water_mark(DEFAULT_RX_WATERMARK)
            .0
    })
}

// All interrupts cleared.
pub fn clear_interrupts(block: &mut RegisterBlock<'_>) -> Result<(), QspiError>
    ensures { Makes (change 0x014 interrupts_cleared) block.old block.new result }
{
    block.modify(0x014, |word| IntStatus(word).clear_all_int().0)
}
