//! The files of `nm_stress`: reads events and calls, and writes replies and states.
#![tactic(auto)]

pub mod read;
pub mod stream;
pub mod write;
