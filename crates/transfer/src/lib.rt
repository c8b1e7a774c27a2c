// Transfers, from blocking.rs.
#![tactic(auto)]

ghost use Rattle.std.specs.Prelude.{◌^◌, ◌≤◌, ◌<◌, length};
ghost use Rattle.access.specs.Goes.{GoesOn};
ghost use Rattle.transfer.specs.Transfer.{transfer_steps, part_steps, in_place_steps};

use access::RegisterBlock;
use config::QspiError;

// The bytes of a part of a transfer in place.
const PART: usize = 256;

// Writes all of `write`, then reads all of `read`.
pub fn transfer(
    block: &mut RegisterBlock<'_>,
    read: &mut [u8],
    write: &[u8],
) -> Result<(), QspiError>
    requires { (length read.old < 2 ^ 24) × (length write.now < 2 ^ 24) }
    ensures { GoesOn (transfer_steps write.now 0 (length read.old)) block.old read.old block.new read.new result }
{
    qspi::phase::tx_phase(block, write, true)?;
    qspi::phase::rx_phase(block, read)
}

// A part of a transfer in place: it is written as it stands, then read.
fn transfer_part(block: &mut RegisterBlock<'_>, chunk: &mut [u8]) -> Result<(), QspiError>
    requires { length chunk.old ≤ 256 }
    ensures { GoesOn (part_steps 0 (length chunk.old)) block.old chunk.old block.new chunk.new result }
{
    qspi::phase::tx_phase(block, chunk, true)?;
    qspi::phase::rx_phase(block, chunk)
}

// Writes and reads back `words` by parts.
pub fn transfer_in_place(block: &mut RegisterBlock<'_>, words: &mut [u8]) -> Result<(), QspiError>
    ensures { GoesOn (in_place_steps 0 (length words.old)) block.old words.old block.new words.new result }
{
    let mut idx: usize = 0;
    while idx < words.len() {
        let len = PART.min(words.len() - idx);
        transfer_part(block, &mut words[idx..idx + len])?;
        idx += len;
    }
    Ok(())
}
