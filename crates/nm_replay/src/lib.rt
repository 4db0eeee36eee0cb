//! `replay`: reads a file of events, and writes what the core replies.
#![tactic(auto)]

mod last_state;
mod output;
mod run;

pub use last_state::each_worker_is_told;
pub use output::plain_files_are_runs;
pub use run::replay;
