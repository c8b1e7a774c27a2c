// What an opening configures at a register block: the private functions of blocking.rs that `new` calls.
#![tactic(auto)]

pub mod controller;
pub mod module_clock;
