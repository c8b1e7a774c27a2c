// Registers of the QSPI controller and of its module clock: fields as shifts and masks.
#![tactic(auto)]

pub mod cmu;
pub mod controller;
pub mod setting;

pub use cmu::NormalModuleClock;
pub use controller::{
    BitModeTransConfig, ClkConfig, Config, FifoControl, FifoStatus, IntControl, IntStatus,
    TotalBytesCnt, TransCnt, TransMiscControl, TransferConfig,
};
pub use setting::{BusMode, ClockDivSel, CsCtrlMode, CsLevel, CsPin, CtrlMode, Phase, Polarity};
