// The phases of a transfer on an answered register block, from blocking.rs: counts, bytes, phases.
#![tactic(auto)]

pub mod phase;
pub mod transfer_counts;

pub use transfer_counts::TransferCounts;
