// Accesses to the register block: each is entered in the lent log, and a read or a byte got takes the next of the lent answers.
#![tactic(auto)]

pub mod block;
pub mod entry;
pub mod progress;

pub use block::{RegisterBlock, log_entry};
pub use entry::{Act, Ask};
pub use progress::{Cause, Progress, Tally};
