// What an opening refuses before any access.
ghost use Rattle.std.specs.Prelude.{◌≡◌, not, ◌&&◌};
ghost use Rattle.access.specs.Of.{Refuses};
ghost use Rattle.config.specs.Config.{is_qpi};
ghost use Rattle.opening.specs.Call.{opening_refusal};

use super::Opening;
use config::{QspiError, WorkMode};
use std::num::NonZeroU32;

fn lacks_qpi(work_mode: WorkMode, qpi: bool) -> bool
    ensures { result ≡ (is_qpi work_mode && not qpi) }
{
    work_mode.is_qpi() && !qpi
}

// 3, 4, 5, 14, 23 or 7, in this order; else the limit.
#[tactic(auto, unfolding(crate::specs::Call::opening_refusal))]
pub fn refused(limit: u32, opening: Opening) -> Result<NonZeroU32, QspiError>
    ensures { Refuses limit (opening_refusal opening limit) result }
{
    let config = opening.config;
    if !config.mode.is_supported() {
        return Err(QspiError::SpiMode);
    }
    if opening.instance > 3 {
        return Err(QspiError::Instance);
    }
    if lacks_qpi(config.work_mode, opening.qpi) {
        return Err(QspiError::Qpi);
    }
    if opening.core_hz == 0 {
        return Err(QspiError::Cycles);
    }
    if !clock::has_clock(opening.clock_tree.pll_fra0) {
        return Err(QspiError::NoClock);
    }
    NonZeroU32::new(limit).ok_or(QspiError::Limit)
}
