// The calls of the bus as a user makes them: refused before any access, or run from no entry and the first answer on.
// Each goes on from a progress too, for calls one after the other.
#![tactic(auto)]

pub mod quad_spi_bus;
pub mod refusal;
pub mod spi_bus;
pub mod work_mode;
