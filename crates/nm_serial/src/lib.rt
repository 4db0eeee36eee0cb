//! Scripts played on the real tree: it reads a file of calls, and writes the answer to each.
#![tactic(auto)]

pub mod answer;
pub mod answer_lines;
pub mod closed_lines;
mod crew;
mod gate;
mod making;
mod many_threads;
mod one_thread;
mod outcome;
mod own_lines;
mod threads;

pub use gate::Gate;
pub use many_threads::stress;
pub use one_thread::serial;
