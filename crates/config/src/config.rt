// Configuration, from config.rs.
ghost use Rattle.std.specs.Prelude.{◌≡◌};
ghost use Rattle.config.specs.Config.{default_config, nor_flash, nand_flash, is_qpi, work_mode_of};

use super::spi;
use super::spi::Mode;
use registers::{CsLevel, CsPin, CtrlMode, Polarity};

#[derive(Clone, Copy, Debug, PartialEq, Eq)]
pub struct QspiConfig {
    // Target rate in Hz.
    pub freq: u32,
    // Only modes 0 and 2 are supported.
    pub mode: Mode,
    pub ctrl_mode: CtrlMode,
    pub work_mode: WorkMode,
    pub bit_mode_en: bool,
    pub lsb_first: bool,
    pub cs_config: Option<CsConfig>,
}

#[derive(Clone, Copy, Debug, PartialEq, Eq)]
pub enum WorkMode {
    // 1-bit data transfer.
    Standard,
    // 1-bit bidirectional (half-duplex).
    ThreeWire,
    // 2-bit data only.
    Dual,
    // 2-bit address and data.
    DualIO,
    // 4-bit data only.
    Quad,
    // 4-bit address and data.
    QuadIO,
    // 4-bit command, address and data.
    Qpi,
}

// The work modes in order.
const WORK_MODES: [WorkMode; 7] = [
    WorkMode::Standard,
    WorkMode::ThreeWire,
    WorkMode::Dual,
    WorkMode::DualIO,
    WorkMode::Quad,
    WorkMode::QuadIO,
    WorkMode::Qpi,
];

impl WorkMode {
    pub fn is_qpi(self) -> bool
        ensures { result ≡ is_qpi self }
    {
        matches!(self, WorkMode::Qpi)
    }

    // The mode at a place in the order above, from 0.
    pub fn from_number(n: u32) -> Option<WorkMode>
        ensures { result ≡ work_mode_of n }
    {
        WORK_MODES.get(n as usize).copied()
    }
}

// The chip-select record.
#[derive(Clone, Copy, Debug, PartialEq, Eq)]
pub struct CsConfig {
    pub polarity: Polarity,
    pub level: CsLevel,
    pub pin: CsPin,
}

impl Default for QspiConfig {
    ghost is_default = { λ config. config ≡ default_config };

    fn default() -> Self {
        Self {
            freq: 10_000_000,
            mode: spi::MODE_0,
            ctrl_mode: CtrlMode::Master,
            work_mode: WorkMode::Standard,
            bit_mode_en: false,
            lsb_first: false,
            cs_config: Some(CsConfig {
                polarity: Polarity::IdleHigh,
                level: CsLevel::Low,
                pin: CsPin::Cs0,
            }),
        }
    }
}

impl QspiConfig {
    // Controller configuration for a single-line SPI-NOR bus.
    pub fn nor_flash() -> Self
        ensures { result ≡ nor_flash }
    {
        Self {
            freq: 100_000_000,
            mode: spi::MODE_0,
            ctrl_mode: CtrlMode::Master,
            work_mode: WorkMode::Standard,
            lsb_first: false,
            bit_mode_en: false,
            cs_config: None,
        }
    }

    // Controller configuration for a single-line SPI-NAND bus.
    pub fn nand_flash() -> Self
        ensures { result ≡ nand_flash }
    {
        Self::nor_flash()
    }
}
