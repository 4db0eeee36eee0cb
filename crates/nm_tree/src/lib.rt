//! A concurrent ordered set of 64-bit integers, without locks.
//!
//! The tree is the external search tree of Natarajan and Mittal (PPoPP 2014). Epoch-based
//! reclamation makes its removed nodes free again (Fraser, Practical lock-freedom, 2004). Open a
//! `Tree`, give each thread one of its `Worker`s, and call `has`, `insert` and `delete` on the
//! shared tree.
#![tactic(auto, using(nm_steps::proofs::Seeing::seen_all))]

mod changes;
mod closing;
mod epochs;
mod fault;
mod lookup;
mod many;
mod map_closing;
mod map_scanning;
mod near_key;
mod notes;
mod popping;
mod putting;
mod removing;
pub mod reporting;
mod resigning;
mod running;
mod scanning;
mod tree;
mod values;
mod worker;

pub use closing::{
    CloseError, CloseReason, Ended, Report, closed_trees_are_accounted_for, linked_leaves_end_once,
    runs_of_closed_trees_are_runs,
};
pub use fault::PinFault;
pub use map_closing::{MapReport, MapValues, waiting_values_are_those_at_the_cut};
pub use nm_calls::{CallFault, MapEntry, Query, Scanned};
pub use nm_edge::Fit;
pub use nm_epoch::{Advance, Behind, Collected, Entry, HandedOut, HeldQueue, Tally};
pub use nm_model::NewError;
pub use nm_puts::{Condition, PutOutcome};
pub use nm_steps::Note;
pub use popping::End;
pub use removing::RemoveOutcome;
pub use resigning::{ResignFault, ResignReason};
pub use running::{each_moment_is_of_turns, heirs_have_nothing_pending, worked_turns_are_counted};
pub use tree::Tree;
pub use worker::{Counts, Worker};
