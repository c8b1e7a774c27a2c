// Why there is no answer to a case.
ghost use Rattle.std.specs.Prelude.{◌≡◌};
ghost use Rattle.replay.specs.declared.failure.Failure.TheVariants.{NoCase};

use std::alloc::{AllocError, AllocFailed};
use std::io;
use std::num::TryFromIntError;

#[derive(Debug, Drop)]
pub enum Failure {
    // The line is no case.
    NoCase,
    // Memory ran out, most likely.
    Io(io::Error),
}

// A number that does not fit where it is given.
impl From<TryFromIntError> for Failure {
    ghost from_gives = { λ _ e. e ≡ NoCase };

    fn from(_e: TryFromIntError) -> Failure {
        Failure::NoCase
    }
}

impl From<io::Error> for Failure {
    fn from(e: io::Error) -> Failure {
        Failure::Io(e)
    }
}

impl From<AllocError> for Failure {
    fn from(e: AllocError) -> Failure {
        Failure::Io(io::Error::from(e))
    }
}

impl<T: Drop> From<AllocFailed<T>> for Failure {
    fn from(e: AllocFailed<T>) -> Failure {
        Failure::from(AllocError::from(e))
    }
}
