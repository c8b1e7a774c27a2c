// The functions of the library to link, on numbers and slices; exports_c gives them their C names. None asks anything
// of its caller.
#![tactic(auto)]

ghost use Rattle.std.specs.Prelude.{◌≡◌};
ghost use Rattle.config_numbers.specs.Limit.{default_limit};

pub mod calls;
pub mod clocks;
pub mod open;
pub mod sheets;
pub mod transaction;

// The Rust's limit: the unready poll of this number in one wait gives 1.
pub fn qspi_default_limit() -> u32
    ensures { result ≡ default_limit }
{
    config_numbers::default_limit()
}
