// The changes of an opening and a release: what blocking.rs's `new` and `free` make of a register's word, at its place.
#![tactic(auto)]

pub mod clock_word;
pub mod controller;
pub mod transfers;
