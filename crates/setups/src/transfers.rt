// How transfers go: the transfer configuration, and the lines of the work mode that a bus opens in.
ghost use Rattle.std.specs.Prelude.{◌≡◌, cond};
ghost use Rattle.model.specs.Field.{set_field};
ghost use Rattle.model.specs.Steps.{change};
ghost use Rattle.access.specs.Makes.{Makes};
ghost use Rattle.setups.specs.Of.{formatted, chip_selected, sampling, bus_set, dual_on, quad_on, qpi_on};

use access::RegisterBlock;
use config::QspiError;
use registers::{
    BitModeTransConfig, BusMode, CsCtrlMode, CsLevel, CsPin, Phase, Polarity, TransMiscControl,
    TransferConfig,
};

// With the low bit sent first, or the high one.
fn ordered(config: TransferConfig, lsb_first: bool) -> TransferConfig
    ensures { result.0 ≡ set_field 12 1 (cond lsb_first 1 0) config.0 }
{
    if lsb_first {
        return config.enable_lsb_transmit();
    }
    config.disable_lsb_transmit()
}

// With data sampled on the edge, at a rate not above the oscillator's, or half a clock later.
fn sampled(config: TransferConfig, slow: bool) -> TransferConfig
    ensures { result.0 ≡ set_field 13 1 (cond slow 1 0) config.0 }
{
    if slow {
        return config.disable_rx_data_delay();
    }
    config.enable_rx_data_delay()
}

// Phase, polarity, who controls the chip select, low bit first.
pub fn format(
    block: &mut RegisterBlock<'_>,
    phase: Phase,
    polarity: Polarity,
    cs_ctrl_mode: CsCtrlMode,
    lsb_first: bool,
) -> Result<(), QspiError>
    ensures { Makes (change 0x008 (formatted phase polarity cs_ctrl_mode lsb_first)) block.old block.new result }
{
    block.modify(0x008, |word| {
        let config = TransferConfig(word)
            .enable_discard_invalid_data()
            .set_clk_pha(phase)
            .set_clk_pol(polarity)
            .set_cs_ctrl_mode(cs_ctrl_mode)
            .enable_tx_data_delay();
        ordered(config, lsb_first).0
    })
}

// The chip-select record.
pub fn select_chip(
    block: &mut RegisterBlock<'_>,
    polarity: Polarity,
    level: CsLevel,
    pin: CsPin,
) -> Result<(), QspiError>
    ensures { Makes (change 0x008 (chip_selected polarity level pin)) block.old block.new result }
{
    block.modify(0x008, |word| {
        TransferConfig(word)
            .set_cs_pol(polarity)
            .set_cs_level(level)
            .set_cs_pin_num(pin)
            .0
    })
}

// Sampling: the rate is not above the oscillator's.
pub fn sample(block: &mut RegisterBlock<'_>, slow: bool) -> Result<(), QspiError>
    ensures { Makes (change 0x008 (sampling slow)) block.old block.new result }
{
    block.modify(0x008, |word| {
        sampled(TransferConfig(word), slow)
            .disable_rx_inner_delay()
            .0
    })
}

// Bytes or bits.
pub fn set_bus_mode(block: &mut RegisterBlock<'_>, mode: BusMode) -> Result<(), QspiError>
    ensures { Makes (change 0x040 (bus_set mode)) block.old block.new result }
{
    block.modify(0x040, |word| BitModeTransConfig(word).set_bus_mode(mode).0)
}

// Two data lines on.
pub fn enable_dual(block: &mut RegisterBlock<'_>) -> Result<(), QspiError>
    ensures { Makes (change 0x038 dual_on) block.old block.new result }
{
    block.modify(0x038, |word| TransMiscControl(word).enable_dual().0)
}

// Four data lines on.
pub fn enable_quad(block: &mut RegisterBlock<'_>) -> Result<(), QspiError>
    ensures { Makes (change 0x038 quad_on) block.old block.new result }
{
    block.modify(0x038, |word| TransMiscControl(word).enable_quad().0)
}

// QPI on.
pub fn enable_qpi(block: &mut RegisterBlock<'_>) -> Result<(), QspiError>
    ensures { Makes (change 0x038 qpi_on) block.old block.new result }
{
    block.modify(0x038, |word| TransMiscControl(word).enable_qpi().0)
}
