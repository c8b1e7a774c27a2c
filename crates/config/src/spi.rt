// The SPI mode of embedded-hal 1.0.
ghost use Rattle.std.specs.Prelude.{◌≡◌};
ghost use Rattle.config.specs.Spi.{supported};

use registers::{Phase, Polarity};

// SPI mode: the clock's idle level and the transition on which data is captured.
#[derive(Clone, Copy, Debug, PartialEq, Eq)]
pub struct Mode {
    pub polarity: Polarity,
    pub phase: Phase,
}

// Idle low, first transition.
pub const MODE_0: Mode = Mode {
    polarity: Polarity::IdleLow,
    phase: Phase::CaptureOnFirstTransition,
};
// Idle low, second transition.
pub const MODE_1: Mode = Mode {
    polarity: Polarity::IdleLow,
    phase: Phase::CaptureOnSecondTransition,
};
// Idle high, first transition.
pub const MODE_2: Mode = Mode {
    polarity: Polarity::IdleHigh,
    phase: Phase::CaptureOnFirstTransition,
};
// Idle high, second transition.
pub const MODE_3: Mode = Mode {
    polarity: Polarity::IdleHigh,
    phase: Phase::CaptureOnSecondTransition,
};

impl Mode {
    // Modes 0 and 2, which capture on the first transition.
    pub fn is_supported(self) -> bool
        ensures { result ≡ supported self }
    {
        self.phase == Phase::CaptureOnFirstTransition
    }
}
