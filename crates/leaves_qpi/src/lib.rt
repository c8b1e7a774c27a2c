// Where the Rust keeps bit 31 of 038 and a mode that leaves QPI clears it: the modes of a case, and the answer that is
// due.
#![tactic(auto)]

pub mod leaves;
pub mod modes;
