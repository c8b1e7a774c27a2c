// Which openings ask for a PLL of which no module divider gives an eligible clock.
#![tactic(auto)]

ghost use Rattle.std.specs.Prelude.{◌≡◌, IfOk};
ghost use Rattle.cases.specs.Number.{numbers_of};
ghost use Rattle.no_clock.specs.Opening.{without_clock};

use std::alloc::{AllocError, Global};

// The PLL in the line of an opening has no clock; 0 where the line has not so many numbers.
pub fn without_clock(alloc: Global, case: &[u8]) -> Result<bool, AllocError>
    ensures { IfOk result (λ b. b ≡ without_clock (numbers_of case.now)) }
{
    let numbers = cases::numbers(alloc, case)?;
    let pll = numbers.get(11).copied().unwrap_or(0);
    Ok(!clock::has_clock(pll))
}
