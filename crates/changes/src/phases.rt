// What a phase changes.
ghost use Rattle.model.specs.Field.{set_field};
ghost use Rattle.model.specs.Steps.{change};
ghost use Rattle.access.specs.Makes.{Makes};

use access::RegisterBlock;
use config::QspiError;
use registers::{FifoControl, TotalBytesCnt, TransCnt, TransMiscControl, TransferConfig};

// Both FIFOs reset.
pub fn reset_both_fifos(block: &mut RegisterBlock<'_>) -> Result<(), QspiError>
    ensures { Makes (change 0x018 (λ w. set_field 15 1 1 (set_field 31 1 1 w))) block.old block.new result }
{
    block.modify(0x018, |word| {
        FifoControl(word).reset_tx_fifo().reset_rx_fifo().0
    })
}

// The bytes of a transfer.
pub fn set_total_bytes(block: &mut RegisterBlock<'_>, bytes: u32) -> Result<(), QspiError>
    ensures { Makes (change 0x030 (set_field 0 24 bytes)) block.old block.new result }
{
    block.modify(0x030, |word| TotalBytesCnt(word).set_total_bytes(bytes).0)
}

// The bytes to send.
pub fn set_tx_cnt(block: &mut RegisterBlock<'_>, cnt: u32) -> Result<(), QspiError>
    ensures { Makes (change 0x034 (set_field 0 24 cnt)) block.old block.new result }
{
    block.modify(0x034, |word| TransCnt(word).set_tx_cnt(cnt).0)
}

// The bytes to send on a single line, and the hardware's dummy bytes.
pub fn set_single_line(
    block: &mut RegisterBlock<'_>,
    single: u32,
    dummy: u8,
) -> Result<(), QspiError>
    ensures { Makes (change 0x038 (λ w. set_field 24 4 dummy (set_field 0 24 single w))) block.old block.new result }
{
    block.modify(0x038, |word| {
        TransMiscControl(word)
            .set_single_tx_count(single)
            .set_dummy_count(dummy)
            .0
    })
}

// START set.
pub fn set_start(block: &mut RegisterBlock<'_>) -> Result<(), QspiError>
    ensures { Makes (change 0x008 (set_field 31 1 1)) block.old block.new result }
{
    block.modify(0x008, |word| TransferConfig(word).set_start(true).0)
}
