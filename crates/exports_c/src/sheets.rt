// Sheets.
ghost use Rattle.sheet_run.specs.Run.{sheet_state};
ghost use Rattle.exports.specs.Calls.{GivesOn};

use counts::Counts;

// Runs the sheet that the bytes are, on the memory at their end; any other bytes are refused as 13.
#[unsafe(no_mangle)]
pub extern "C" fn qspi_sheet(bytes: &mut [u8], log: &mut [u32], counts: &mut Counts) -> u32
    ensures { GivesOn (sheet_state bytes.old log.old) log.new bytes.new result counts.new }
{
    exports::sheets::qspi_sheet(bytes, log, counts)
}
