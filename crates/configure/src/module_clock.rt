// The module clock of an instance.
ghost use Rattle.std.specs.Prelude.{◌≡◌, ◌+◌, ◌<◌, min};
ghost use Rattle.access.specs.Makes.{Makes};
ghost use Rattle.configure.specs.Steps.{enable_module_clock};

use access::{Act, RegisterBlock};
use config::QspiError;
use setups::clock_word;

// The place of its word; instances above 3 use that of 3.
pub fn clock_place(instance: u32) -> u16
    ensures { result ≡ 0x1000 + min instance 3 }
{
    0x1000 + instance.min(3) as u16
}

// Configures and enables the module clock, with a reset of the module.
pub fn enable_module_clock(
    block: &mut RegisterBlock<'_>,
    instance: u32,
    mod_div: u8,
) -> Result<(), QspiError>
    requires instance_bound { instance < 4 }
    ensures { Makes (enable_module_clock instance mod_div) block.old block.new result }
{
    let place = clock_place(instance);
    clock_word::enable(block, place, mod_div)?;
    clock_word::assert_reset(block, place)?;
    block.perform(Act::Delay(500))?;
    clock_word::release_reset(block, place)
}
