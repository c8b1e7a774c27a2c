// A configuration by numbers and flags, and what a number that is no work mode is refused as.
#![tactic(auto)]

ghost use Rattle.std.specs.Prelude.{◌≡◌};
ghost use Rattle.config.specs.Config.{work_mode_of};
ghost use Rattle.config.specs.Error.{error_number};
ghost use Rattle.config_numbers.specs.Limit.{default_limit, no_mode};
ghost use Rattle.config_numbers.specs.Settings.{ctrl_mode_of, cs_of, mode_of, config_of};

use config::{CsConfig, Mode, QspiConfig, QspiError, WorkMode};

// A configuration as the C interface has it: the target in Hz, the number of the work mode, and flags.
#[derive(Clone, Copy, Debug, PartialEq, Eq)]
pub struct ConfigNumbers {
    pub freq: u32,
    pub idle_high: bool,
    pub second_transition: bool,
    pub master: bool,
    pub work_mode: u32,
    pub bit_mode: bool,
    pub lsb_first: bool,
    // There is a chip-select record: the flags below.
    pub cs: bool,
    pub cs_idle_high: bool,
    pub cs_high: bool,
    pub cs_1: bool,
}

// The limit of unready polls in one wait that the Rust has.
pub fn default_limit() -> u32
    ensures { result ≡ default_limit }
{
    100_000
}

// What a number that is no mode is refused as.
pub fn no_mode(limit: u32) -> QspiError
    ensures { error_number result ≡ no_mode limit }
{
    if limit == 0 {
        QspiError::Limit
    } else {
        QspiError::Chain
    }
}

impl ConfigNumbers {
    fn spi_mode(self) -> Mode
        ensures { result ≡ mode_of self.idle_high self.second_transition }
    {
        Mode {
            polarity: self.idle_high.into(),
            phase: self.second_transition.into(),
        }
    }

    fn cs_config(self) -> Option<CsConfig>
        ensures { result ≡ cs_of self.cs self.cs_idle_high self.cs_high self.cs_1 }
    {
        self.cs.then_some(CsConfig {
            polarity: self.cs_idle_high.into(),
            level: self.cs_high.into(),
            pin: self.cs_1.into(),
        })
    }

    // The configuration, if its work mode has a number from 0 to 6.
    pub fn config(self) -> Option<QspiConfig>
        ensures { result ≡ config_of (work_mode_of self.work_mode) self.freq
            (mode_of self.idle_high self.second_transition) (ctrl_mode_of self.master) self.bit_mode self.lsb_first
            (cs_of self.cs self.cs_idle_high self.cs_high self.cs_1) }
    {
        Some(QspiConfig {
            freq: self.freq,
            mode: self.spi_mode(),
            ctrl_mode: self.master.into(),
            work_mode: WorkMode::from_number(self.work_mode)?,
            bit_mode_en: self.bit_mode,
            lsb_first: self.lsb_first,
            cs_config: self.cs_config(),
        })
    }
}
