//! A set or a map that any thread calls through a shared reference, without a member of its own.
//!
//! Each call borrows a worker that no other call has, asks it once, and gives it back. Proved: the
//! answers of all calls of a set by all threads are different acts of one history of one plain set,
//! and two calls by one caller are in their order, also by different workers.
#![tactic(auto)]

mod attaching;
mod laws;
mod looking;
mod mapping;
mod popping;
mod regrowing;
mod shared_set;

pub use attaching::Attached;
pub use laws::{calls_of_one_caller_are_in_order, shown_calls_are_apart};
pub use regrowing::{RegrowError, Regrown, regrow};
pub use shared_set::{Caller, MapCaller, SharedMap, SharedSet};
