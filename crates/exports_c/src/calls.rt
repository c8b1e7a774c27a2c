// The calls of the bus. Each gives its number and writes its counts.
ghost use Rattle.bus.specs.Calls.{Call, outcome};
ghost use Rattle.config.specs.Config.{work_mode_of};
ghost use Rattle.numbered.specs.Calls.{mode_outcome};
ghost use Rattle.exports.specs.Calls.{Gives, GivesOn};
ghost use Rattle.std.specs.Prelude.{length};

use counts::Counts;

// Writes all the bytes on a single line.
#[unsafe(no_mangle)]
pub extern "C" fn qspi_write(
    limit: u32,
    log: &mut [u32],
    answers: &[u32],
    bytes: &[u8],
    counts: &mut Counts,
) -> u32
    ensures { Gives (outcome (Call.write bytes.now) limit answers.now log.old) log.new result counts.new }
{
    exports::calls::qspi_write(limit, log, answers, bytes, counts)
}

// Reads as many bytes as there is room for.
#[unsafe(no_mangle)]
pub extern "C" fn qspi_read(
    limit: u32,
    log: &mut [u32],
    answers: &[u32],
    bytes: &mut [u8],
    counts: &mut Counts,
) -> u32
    ensures { GivesOn (outcome (Call.read (length bytes.old)) limit answers.now log.old bytes.old) log.new bytes.new result counts.new }
{
    exports::calls::qspi_read(limit, log, answers, bytes, counts)
}

// Writes all of `write`, then reads all of `read`.
#[unsafe(no_mangle)]
pub extern "C" fn qspi_transfer(
    limit: u32,
    log: &mut [u32],
    answers: &[u32],
    read: &mut [u8],
    write: &[u8],
    counts: &mut Counts,
) -> u32
    ensures { GivesOn (outcome (Call.transfer write.now (length read.old)) limit answers.now log.old read.old) log.new read.new result counts.new }
{
    exports::calls::qspi_transfer(limit, log, answers, read, write, counts)
}

// Waits for the transfer to complete.
#[unsafe(no_mangle)]
pub extern "C" fn qspi_flush(
    limit: u32,
    log: &mut [u32],
    answers: &[u32],
    counts: &mut Counts,
) -> u32
    ensures { Gives (outcome Call.flush limit answers.now log.old) log.new result counts.new }
{
    exports::calls::qspi_flush(limit, log, answers, counts)
}

// Writes and reads back the bytes, by parts.
#[unsafe(no_mangle)]
pub extern "C" fn qspi_transfer_in_place(
    limit: u32,
    log: &mut [u32],
    answers: &[u32],
    bytes: &mut [u8],
    counts: &mut Counts,
) -> u32
    ensures { GivesOn (outcome (Call.transfer_in_place (length bytes.old)) limit answers.now log.old bytes.old) log.new bytes.new result counts.new }
{
    exports::calls::qspi_transfer_in_place(limit, log, answers, bytes, counts)
}

// Reads `data` on four lines, after `command` and its dummy bytes on one. `hz`: the rate of the bus.
#[unsafe(no_mangle)]
pub extern "C" fn qspi_read_quad(
    limit: u32,
    log: &mut [u32],
    answers: &[u32],
    hz: u32,
    command: &[u8],
    tclqv_ns: u32,
    margin: u8,
    data: &mut [u8],
    counts: &mut Counts,
) -> u32
    ensures { GivesOn (outcome (Call.read_quad hz command.now tclqv_ns margin (length «data».old)) limit answers.now log.old «data».old) log.new «data».new result counts.new }
{
    exports::calls::qspi_read_quad(
        limit, log, answers, hz, command, tclqv_ns, margin, data, counts,
    )
}

// Writes `data` on four lines, after `command` on one.
#[unsafe(no_mangle)]
pub extern "C" fn qspi_write_quad(
    limit: u32,
    log: &mut [u32],
    answers: &[u32],
    command: &[u8],
    data: &[u8],
    counts: &mut Counts,
) -> u32
    ensures { Gives (outcome (Call.write_quad command.now «data».now) limit answers.now log.old) log.new result counts.new }
{
    exports::calls::qspi_write_quad(limit, log, answers, command, data, counts)
}

// Changes the work mode, by its number. `qpi`: the chip has QPI.
#[unsafe(no_mangle)]
pub extern "C" fn qspi_set_work_mode(
    limit: u32,
    log: &mut [u32],
    answers: &[u32],
    qpi: bool,
    mode: u32,
    counts: &mut Counts,
) -> u32
    ensures { Gives (mode_outcome (work_mode_of mode) qpi limit answers.now log.old) log.new result counts.new }
{
    exports::calls::qspi_set_work_mode(limit, log, answers, qpi, mode, counts)
}
