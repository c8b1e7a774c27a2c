// What is refused before any access.
ghost use Rattle.std.specs.Prelude.{◌≡◌, [], ◌∷◌, Err};
ghost use Rattle.access.specs.Of.{Refuses, with_ended};
ghost use Rattle.bus.specs.Calls.{refusal};
ghost use Rattle.bus.specs.Does.{ended_or};

use access::Progress;
use config::QspiError;
use std::num::NonZeroU32;

// The longest phase: FFFFFF hex.
const MAX_LENGTH: usize = 0xFFFFFF;

// 7 for limit 0, then 6 for a phase that is too long; else the limit. A call of one phase, or of none, gives 0 for the others.
pub fn refused(limit: u32, first: usize, second: usize) -> Result<NonZeroU32, QspiError>
    ensures { Refuses limit (refusal limit (first ∷ second ∷ [])) result }
{
    let Some(limit) = NonZeroU32::new(limit) else {
        return Err(QspiError::Limit);
    };
    if first > MAX_LENGTH {
        return Err(QspiError::Length);
    }
    if second > MAX_LENGTH {
        return Err(QspiError::Length);
    }
    Ok(limit)
}

// The same from a progress on: what has ended it comes first.
pub fn resumed(
    progress: Progress,
    limit: u32,
    first: usize,
    second: usize,
) -> Result<NonZeroU32, QspiError>
    ensures { Refuses limit (ended_or progress (refusal limit (first ∷ second ∷ []))) result }
{
    progress.ended.and(refused(limit, first, second))
}

// The progress ended by that, with its counts as they stand.
pub fn ended_by(progress: Progress, error: QspiError) -> Progress
    ensures { result ≡ with_ended (Err error) progress }
{
    Progress {
        ended: Err(error),
        ..progress
    }
}
