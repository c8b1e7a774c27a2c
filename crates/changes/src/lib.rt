// Changes of registers by a work mode and by a phase: one read and one write at a register's place.
#![tactic(auto)]

pub mod modes;
pub mod phases;

pub use modes::Lines;
