// The calls whose work mode or configuration is found by numbers, which may be of none.
#![tactic(auto)]

ghost use Rattle.config.specs.Config.{work_mode_of};
ghost use Rattle.numbered.specs.Calls.{CalledMode, OpensFound};

use access::Progress;
use config::{QspiError, WorkMode};
use opening::{Opened, Opening};

// The work mode of a number, 0 to 6; 8 for another, after 7.
pub fn set_numbered_mode(
    limit: u32,
    qpi: bool,
    log: &mut [u32],
    answers: &[u32],
    mode: u32,
) -> Progress
    ensures { CalledMode (work_mode_of mode) qpi limit answers.now log.old result log.new }
{
    match WorkMode::from_number(mode) {
        Some(known) => bus::work_mode::set_work_mode(limit, qpi, log, answers, known),
        None => Progress::refused(config_numbers::no_mode(limit)),
    }
}

// Opens what was found; 8 where nothing was, before anything else is tested.
pub fn open_found(limit: u32, log: &mut [u32], answers: &[u32], found: Option<Opening>) -> Opened
    ensures { OpensFound found limit answers.now log.old result log.new }
{
    match found {
        Some(opening) => opening::open(limit, log, answers, opening),
        None => Opened {
            progress: Progress::refused(QspiError::Chain),
            sck_hz: None,
        },
    }
}
