// What a work mode changes.
ghost use Rattle.std.specs.Prelude.{◌≡◌, cond};
ghost use Rattle.model.specs.Field.{set_field};
ghost use Rattle.model.specs.Steps.{change};
ghost use Rattle.access.specs.Makes.{Makes};
ghost use Rattle.changes.specs.Of.{lined};

use access::RegisterBlock;
use config::QspiError;
use registers::{TransMiscControl, TransferConfig};

// The data lines.
#[derive(Clone, Copy)]
pub enum Lines {
    One,
    Two,
    Four,
    // Four, commands too.
    Qpi,
}

impl Lines {
    // What is written for a word that was read.
    fn apply(self, word: u32) -> u32
        ensures { result ≡ lined self word }
    {
        let control = TransMiscControl(word);
        match self {
            Lines::One => control.disable_quad().disable_dual().disable_qpi().0,
            Lines::Two => control.disable_quad().enable_dual().disable_qpi().0,
            Lines::Four => control.enable_quad().disable_dual().disable_qpi().0,
            Lines::Qpi => control.enable_quad().enable_qpi().0,
        }
    }
}

pub fn set_lines(block: &mut RegisterBlock<'_>, lines: Lines) -> Result<(), QspiError>
    ensures { Makes (change 0x038 (lined lines)) block.old block.new result }
{
    block.modify(0x038, |word| lines.apply(word))
}

// A word with three-wire on or off.
fn wired(word: u32, on: bool) -> u32
    ensures { result ≡ set_field 25 1 (cond on 1 0) word }
{
    if on {
        return TransferConfig(word).enable_three_wire().0;
    }
    TransferConfig(word).disable_three_wire().0
}

pub fn set_three_wire(block: &mut RegisterBlock<'_>, on: bool) -> Result<(), QspiError>
    ensures { Makes (change 0x008 (set_field 25 1 (cond on 1 0))) block.old block.new result }
{
    block.modify(0x008, |word| wired(word, on))
}
