//! Slots taken out of the pool to be nodes, and given back.
#![tactic(auto, using(nm_steps::proofs::Seeing::seen_all))]

mod claims;
mod nodes;

pub use claims::claim_by;
pub use nodes::give;
