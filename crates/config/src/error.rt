// Bus errors: those of error.rs, and what else documents 01 ("How a call ends") and 02 refuse.
ghost use Rattle.std.specs.Prelude.{◌≡◌, Some};
ghost use Rattle.config.specs.Error.{error_number, error_text, ended_number, touches_nothing};

use std::fmt;

// Each has its number of document 01 or 02.
#[derive(Clone, Copy, Debug, PartialEq, Eq)]
pub enum QspiError {
    // Timeout waiting for hardware.
    Timeout = 1,
    // The requested mode is not implemented by this controller revision.
    Unsupported = 2,
    // SPI mode 1 or 3.
    SpiMode = 3,
    // Instance above 3.
    Instance = 4,
    // QPI at opening on a chip without it.
    Qpi = 5,
    // Length above FFFFFF hex in one phase.
    Length = 6,
    // Limit 0.
    Limit = 7,
    // A chain's length, kind, next or field.
    Chain = 8,
    // Window outside memory.
    Window = 9,
    // Log used up.
    Log = 10,
    // Answers used up.
    Answers = 11,
    // Module divider above 31, or Cdr1 above 15.
    Divider = 12,
    // A sheet too long or too short, or its QPI word.
    Sheet = 13,
    // Core rate 0 at opening, or a delay of more cycles than 32 bits hold.
    Cycles = 14,
    // No eligible module clock at opening.
    NoClock = 23,
}

impl QspiError {
    // The number of the error.
    pub fn number(self) -> u32
        ensures { result ≡ error_number self }
    {
        self as u32
    }
}

impl From<QspiError> for u32 {
    ghost from_gives = { λ error number. number ≡ error_number error };

    fn from(error: QspiError) -> u32 {
        error.number()
    }
}

impl fmt::Display for QspiError {
    ghost output = { λ error. Some (error_text error) };

    fn fmt<W: fmt::Write>(&self, f: &mut fmt::Formatter<W>) -> fmt::Result {
        f.write_str(match self {
            QspiError::Timeout => "timeout",
            QspiError::Unsupported => "unsupported",
            QspiError::SpiMode => "SPI mode 1 or 3",
            QspiError::Instance => "instance above 3",
            QspiError::Qpi => "QPI at opening on a chip without it",
            QspiError::Length => "length above FFFFFF hex in one phase",
            QspiError::Limit => "limit 0",
            QspiError::Chain => "chain",
            QspiError::Window => "window outside memory",
            QspiError::Log => "log used up",
            QspiError::Answers => "answers used up",
            QspiError::Divider => "divider",
            QspiError::Sheet => "sheet",
            QspiError::Cycles => "core rate 0 at opening, or a delay above FFFFFFFF hex cycles",
            QspiError::NoClock => "no eligible module clock at opening",
        })
    }
}

// The number by which a call ends: 0, or that of its error.
pub fn number_of(ended: Result<(), QspiError>) -> u32
    ensures { result ≡ ended_number ended }
{
    match ended {
        Ok(()) => 0,
        Err(error) => error.number(),
    }
}

// Is it the number of what touches no register and no lent byte?
pub fn touches_nothing(number: u32) -> bool
    ensures { result ≡ touches_nothing number }
{
    matches!(number, 3..=9 | 12..=14 | 23)
}
