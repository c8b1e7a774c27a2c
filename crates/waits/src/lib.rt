// The four waits.
#![tactic(auto)]

ghost use Rattle.std.specs.Prelude.{◌≡◌, ◌≤◌};
ghost use Rattle.model.specs.Wait.{place_of, count_of, ready};
ghost use Rattle.model.specs.Wait.Cause.{empty, start};
ghost use Rattle.model.specs.Steps.{wait_for};
ghost use Rattle.access.specs.Of.{cause_of};
ghost use Rattle.access.specs.Goes.{Goes};
ghost use Rattle.waits.specs.Does.{Polls, Waited};

use access::{Ask, Cause, RegisterBlock, Tally};
use config::QspiError;
use registers::{FifoStatus, TransferConfig};

const FIFO_DEPTH: u32 = 64;

// The register that a wait polls.
fn polled(cause: Cause) -> u16
    ensures { result ≡ place_of (cause_of cause) }
{
    match cause {
        Cause::Space | Cause::Received | Cause::Empty => 0x01C,
        Cause::Start => 0x008,
    }
}

// The count that a wait ends with: bytes that fit the transmit FIFO, or bytes in the receive FIFO.
fn count_of(cause: Cause, word: u32) -> u32
    ensures { result ≡ count_of (cause_of cause) word }
{
    match cause {
        Cause::Space => FIFO_DEPTH.saturating_sub(FifoStatus(word).tx_fifo_count() as u32),
        Cause::Received => FifoStatus(word).rx_fifo_count() as u32,
        Cause::Empty | Cause::Start => 0,
    }
}

// Does a word have what its wait is for?
fn is_ready(cause: Cause, word: u32) -> bool
    ensures { result ≡ ready (cause_of cause) word }
{
    match cause {
        Cause::Space | Cause::Received => 0 < count_of(cause, word),
        Cause::Empty => FifoStatus(word).tx_fifo_count() == 0,
        Cause::Start => !TransferConfig(word).start(),
    }
}

// Polls until a word is ready; 1 at the unready poll number that is the block's limit. The tally is lent and changed in
// place: nothing else raises polls and longest. It is inlined where the cause is known.
#[inline(always)]
fn wait_tallied(
    tally: &mut Tally,
    block: &mut RegisterBlock<'_>,
    cause: Cause,
) -> Result<u32, QspiError>
    requires { tally.old.polls ≤ block.old.entries }
    ensures { Polls (cause_of cause) tally.old block.old tally.new block.new result }
{
    let limit = block.limit.get();
    let mut unready: u32 = 0;
    let count = loop {
        let word = block.query(Ask::Register(polled(cause)))?;
        let ready = is_ready(cause, word);
        *tally = tally.counted(cause, unready, ready);
        if ready {
            break count_of(cause, word);
        }
        unready += 1;
        if unready == limit {
            return Err(QspiError::Timeout);
        }
    };
    Ok(count)
}

// Polls until a word is ready; 1 at the unready poll number that is the block's limit.
#[inline(always)]
pub fn wait(block: &mut RegisterBlock<'_>, cause: Cause) -> Result<u32, QspiError>
    ensures { Waited (cause_of cause) block.old block.new result }
{
    let mut tally = block.tally;
    let waited = wait_tallied(&mut tally, block, cause);
    block.tally = tally;
    waited
}

// Waits for the transfer to complete.
pub fn wait_transfer_done(block: &mut RegisterBlock<'_>) -> Result<(), QspiError>
    ensures { Goes (wait_for start) block.old block.new result }
{
    wait(block, Cause::Start)?;
    Ok(())
}

// Waits until the transmit FIFO has drained into the shifter.
pub fn wait_tx_drained(block: &mut RegisterBlock<'_>) -> Result<(), QspiError>
    ensures { Goes (wait_for empty) block.old block.new result }
{
    wait(block, Cause::Empty)?;
    Ok(())
}
