// Settings that a field holds: the enums of qspi/register.rs, and Polarity and Phase of embedded-hal 1.0.
// A variant's number is what the field holds for it, and a flag names the variant of its bit.
ghost use Rattle.std.specs.Prelude.{◌≡◌};
ghost use Rattle.registers.specs.Setting.{ctrl_mode_of, level_of, pin_of, polarity_of, phase_of};

// Controller mode.
#[derive(Clone, Copy, Debug, PartialEq, Eq)]
pub enum CtrlMode {
    Slave = 0,
    Master = 1,
}

// Chip-select level.
#[derive(Clone, Copy, Debug, PartialEq, Eq)]
pub enum CsLevel {
    Low = 0,
    High = 1,
}

// Who controls the chip select.
#[derive(Clone, Copy, Debug, PartialEq, Eq)]
pub enum CsCtrlMode {
    SpiController = 0,
    Software = 1,
}

// Chip-select pin of the external device.
#[derive(Clone, Copy, Debug, PartialEq, Eq)]
pub enum CsPin {
    Cs0 = 0,
    Cs1 = 1,
}

// Clock divider in use: CKDIV1 or CKDIV2.
#[derive(Clone, Copy, Debug, PartialEq, Eq)]
pub enum ClockDivSel {
    Div1 = 0,
    Div2 = 1,
}

// Bus mode.
#[derive(Clone, Copy, Debug, PartialEq, Eq)]
pub enum BusMode {
    // Bytes, for standard, dual and quad SPI.
    StandardBytes = 0,
    // Bits, for three-wire mode.
    QuadBits = 2,
    // Bits, for standard SPI.
    StandardBits = 3,
}

// Level of an idle line.
#[derive(Clone, Copy, Debug, PartialEq, Eq)]
pub enum Polarity {
    IdleLow = 0,
    IdleHigh = 1,
}

// Clock transition on which data is captured.
#[derive(Clone, Copy, Debug, PartialEq, Eq)]
pub enum Phase {
    CaptureOnFirstTransition = 0,
    CaptureOnSecondTransition = 1,
}

impl From<bool> for CtrlMode {
    ghost from_gives = { λ master mode. mode ≡ ctrl_mode_of master };

    fn from(master: bool) -> Self {
        if master {
            CtrlMode::Master
        } else {
            CtrlMode::Slave
        }
    }
}

impl From<bool> for CsLevel {
    ghost from_gives = { λ high level. level ≡ level_of high };

    fn from(high: bool) -> Self {
        if high { CsLevel::High } else { CsLevel::Low }
    }
}

impl From<bool> for CsPin {
    ghost from_gives = { λ second pin. pin ≡ pin_of second };

    fn from(second: bool) -> Self {
        if second { CsPin::Cs1 } else { CsPin::Cs0 }
    }
}

impl From<bool> for Polarity {
    ghost from_gives = { λ high polarity. polarity ≡ polarity_of high };

    fn from(idle_high: bool) -> Self {
        if idle_high {
            Polarity::IdleHigh
        } else {
            Polarity::IdleLow
        }
    }
}

impl From<bool> for Phase {
    ghost from_gives = { λ second phase. phase ≡ phase_of second };

    fn from(second_transition: bool) -> Self {
        if second_transition {
            Phase::CaptureOnSecondTransition
        } else {
            Phase::CaptureOnFirstTransition
        }
    }
}
