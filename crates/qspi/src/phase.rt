// The phases of a transfer.
ghost use Rattle.std.specs.Prelude.{◌≡◌, map, ◌^◌, ◌<◌, length};
ghost use Rattle.model.specs.Wait.Cause.{space, received};
ghost use Rattle.model.specs.Steps.{then};
ghost use Rattle.access.specs.Makes.{Makes, MakesOn};
ghost use Rattle.access.specs.Goes.{Goes, GoesOn};
ghost use Rattle.qspi.specs.Phases.{reset_fifos, program_transfer, start_transfer, begin_transfer, moved_all, paced, gots, tx_phase, rx_phase};
ghost use Rattle.qspi.specs.Phases.Move.{sent};
ghost use Rattle.qspi.specs.Entered.{Enters, EntersOn};

use super::transfer_counts::TransferCounts;
use access::{Act, Ask, Cause, RegisterBlock, log_entry};
use answers::Answers;
use config::QspiError;

// Resets both FIFOs before a new transfer.
pub fn reset_fifos(block: &mut RegisterBlock<'_>) -> Result<(), QspiError>
    ensures { Makes reset_fifos block.old block.new result }
{
    changes::phases::reset_both_fifos(block)?;
    block.perform(Act::Delay(10))
}

// Writes the bytes of a phase, and those to send.
fn program_transfer(block: &mut RegisterBlock<'_>, counts: TransferCounts) -> Result<(), QspiError>
    ensures { Makes (program_transfer counts.total counts.tx) block.old block.new result }
{
    changes::phases::set_total_bytes(block, counts.total)?;
    changes::phases::set_tx_cnt(block, counts.tx)
}

// Writes how many of them go on a single line, and starts.
fn start_transfer(block: &mut RegisterBlock<'_>, counts: TransferCounts) -> Result<(), QspiError>
    ensures { Makes (start_transfer counts.single_line_tx counts.hardware_dummy) block.old block.new result }
{
    changes::phases::set_single_line(block, counts.single_line_tx, counts.hardware_dummy)?;
    changes::phases::set_start(block)
}

// What comes before the bytes of a phase.
fn begin(block: &mut RegisterBlock<'_>, counts: TransferCounts) -> Result<(), QspiError>
    ensures { Makes (then reset_fifos (begin_transfer counts.total counts.tx counts.single_line_tx counts.hardware_dummy)) block.old block.new result }
{
    reset_fifos(block)?;
    program_transfer(block, counts)?;
    start_transfer(block, counts)
}

// Bytes to the transmit FIFO, with no wait, entered in a log behind so many entries: how many there are then. It is
// `perform` for each byte, with the counts in variables: in the block they are stored and read again at each.
fn sends(log: &mut [u32], entries: usize, bytes: &[u8]) -> (usize, Result<(), QspiError>)
    ensures { Enters (moved_all (map sent bytes.now)) log.old entries log.new result.0 result.1 }
{
    let mut entries = entries;
    for byte in bytes {
        if log.len() / 2 <= entries {
            return (entries, Err(QspiError::Log));
        }
        let access = Act::Send(*byte);
        log_entry(log, entries, access.head(), access.value());
        entries += 1;
    }
    (entries, Ok(()))
}

fn send_all(block: &mut RegisterBlock<'_>, bytes: &[u8]) -> Result<(), QspiError>
    ensures { Makes (moved_all (map sent bytes.now)) block.old block.new result }
{
    let (entries, ended) = sends(block.log, block.entries, bytes);
    block.entries = entries;
    ended
}

// Bytes from the receive FIFO, with no wait: `query` for each, in the same way. The entries and the answers taken.
fn gets(
    log: &mut [u32],
    entries: usize,
    answers: Answers<'_>,
    bytes: &mut [u8],
) -> (usize, usize, Result<(), QspiError>)
    ensures { EntersOn (moved_all (gots 0 (length bytes.old))) answers.entry.words.now log.old entries answers.entry.at bytes.old log.new result.0 result.1 bytes.new result.2 }
{
    let mut entries = entries;
    let mut answers = answers;
    for byte in bytes.iter_mut() {
        if log.len() / 2 <= entries {
            return (entries, answers.at, Err(QspiError::Log));
        }
        let Some(answer) = answers.read() else {
            return (entries, answers.at, Err(QspiError::Answers));
        };
        let word = Ask::Byte.said(answer);
        log_entry(log, entries, Ask::Byte.head(), word);
        entries += 1;
        *byte = word as u8;
    }
    (entries, answers.at, Ok(()))
}

fn get_all(block: &mut RegisterBlock<'_>, bytes: &mut [u8]) -> Result<(), QspiError>
    ensures { MakesOn (moved_all (gots 0 (length bytes.old))) block.old bytes.old block.new bytes.new result }
{
    let (entries, taken, ended) = gets(block.log, block.entries, block.answers, bytes);
    block.entries = entries;
    block.answers.at = taken;
    ended
}

// Writes bytes to the transmit FIFO, as many as it has space for at a time.
fn write_bytes(block: &mut RegisterBlock<'_>, bytes: &[u8]) -> Result<(), QspiError>
    ensures { Goes (paced space 0 (map sent bytes.now)) block.old block.new result }
{
    let mut idx: usize = 0;
    while idx < bytes.len() {
        let count = waits::wait(block, Cause::Space)? as usize;
        let len = count.min(bytes.len() - idx);
        send_all(block, &bytes[idx..idx + len])?;
        idx += len;
    }
    Ok(())
}

// Reads bytes from the receive FIFO, as many as it has at a time.
fn read_bytes(block: &mut RegisterBlock<'_>, bytes: &mut [u8]) -> Result<(), QspiError>
    ensures { GoesOn (paced received 0 (gots 0 (length bytes.old))) block.old bytes.old block.new bytes.new result }
{
    let mut idx: usize = 0;
    while idx < bytes.len() {
        let count = waits::wait(block, Cause::Received)? as usize;
        let len = count.min(bytes.len() - idx);
        get_all(block, &mut bytes[idx..idx + len])?;
        idx += len;
    }
    Ok(())
}

// Sends a phase; `single_line`: all of it on a single line.
pub fn tx_phase(
    block: &mut RegisterBlock<'_>,
    data: &[u8],
    single_line: bool,
) -> Result<(), QspiError>
    requires { length «data».now < 2 ^ 24 }
    ensures { Goes (tx_phase single_line «data».now) block.old block.new result }
{
    if data.is_empty() {
        return Ok(());
    }
    let counts = TransferCounts::tx(data.len() as u32, single_line);
    begin(block, counts)?;
    write_bytes(block, data)?;
    waits::wait_tx_drained(block)?;
    waits::wait_transfer_done(block)
}

// Receives a phase.
pub fn rx_phase(block: &mut RegisterBlock<'_>, data: &mut [u8]) -> Result<(), QspiError>
    requires { length «data».old < 2 ^ 24 }
    ensures { GoesOn (rx_phase 0 (length «data».old)) block.old «data».old block.new «data».new result }
{
    if data.is_empty() {
        return Ok(());
    }
    let counts = TransferCounts::rx(data.len() as u32);
    begin(block, counts)?;
    read_bytes(block, data)?;
    waits::wait_transfer_done(block)
}
