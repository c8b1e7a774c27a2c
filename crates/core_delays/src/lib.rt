// Where a delay record of the Rust has half its nanoseconds and that of a transaction the cycles of the core rate:
// those of a case, and the answer that is due.
#![tactic(auto)]

pub mod delays;
pub mod due;
