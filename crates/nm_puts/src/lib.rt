//! The calls of a map's worker that replace the value of a key, over a pass and a queue. They use
//! the steps and walks of `nm_walks`, and the words of maps of `nm_calls`.
#![tactic(auto, using(nm_steps::proofs::Seeing::seen_all))]

mod laws;
mod leaves;
mod leaving;
mod putting;
mod removing;
mod swapping;

pub use laws::replaced_values_have_puts;
pub use putting::{Attempt, Condition, PutOutcome, put};
pub use removing::{DeleteOutcome, delete_if};

#[cfg(test)]
mod tests;
