// Sheets.
ghost use Rattle.sheet_run.specs.Run.{sheet_state};
ghost use Rattle.exports.specs.Calls.{GivesOn};

use counts::{Counts, tell};

// Runs the sheet that the bytes are, on the memory at their end; any other bytes are refused as 13.
pub fn qspi_sheet(bytes: &mut [u8], log: &mut [u32], counts: &mut Counts) -> u32
    ensures { GivesOn (sheet_state bytes.old log.old) log.new bytes.new result counts.new }
{
    let p = sheet_run::run(bytes, log);
    tell(p, counts)
}
