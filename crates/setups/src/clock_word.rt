// The module clock's word, at the place of its instance.
ghost use Rattle.model.specs.Steps.{change};
ghost use Rattle.access.specs.Makes.{Makes};
ghost use Rattle.setups.specs.Of.{clock_on, reset_on, reset_off, clock_off};

use access::RegisterBlock;
use config::QspiError;
use registers::NormalModuleClock;

// The divider, and both enables.
pub fn enable(block: &mut RegisterBlock<'_>, place: u16, div: u8) -> Result<(), QspiError>
    ensures { Makes (change place (clock_on div)) block.old block.new result }
{
    block.modify(place, |word| {
        NormalModuleClock(word)
            .set_module_clk_div(div)
            .enable_module_clk()
            .enable_bus_clk()
            .0
    })
}

// Reset asserted.
pub fn assert_reset(block: &mut RegisterBlock<'_>, place: u16) -> Result<(), QspiError>
    ensures { Makes (change place reset_on) block.old block.new result }
{
    block.modify(
        place,
        |word| NormalModuleClock(word).enable_module_reset().0,
    )
}

// Reset released.
pub fn release_reset(block: &mut RegisterBlock<'_>, place: u16) -> Result<(), QspiError>
    ensures { Makes (change place reset_off) block.old block.new result }
{
    block.modify(
        place,
        |word| NormalModuleClock(word).disable_module_reset().0,
    )
}

// Both enables off, reset asserted.
pub fn disable(block: &mut RegisterBlock<'_>, place: u16) -> Result<(), QspiError>
    ensures { Makes (change place clock_off) block.old block.new result }
{
    block.modify(place, |word| {
        NormalModuleClock(word)
            .disable_module_clk()
            .disable_bus_clk()
            .enable_module_reset()
            .0
    })
}
