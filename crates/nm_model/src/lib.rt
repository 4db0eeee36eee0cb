//! The words of the tree and what every worker knows, as plain data, and the definitions that all
//! crates use.
#![tactic(auto)]

pub mod arrivals;
pub mod event;
pub mod indices;
pub mod keys;
pub mod knowledge;
pub mod ledger;
pub mod ledgers;
pub mod memory;
mod new_error;
mod places;
pub mod queue;
pub mod reply;
pub mod slot_map;
pub mod trace;

pub use event::{Event, Field, Op};
pub use knowledge::Brief;
pub use ledger::{Ledger, Nodes, Queued};
pub use ledgers::Ledgers;
pub use new_error::NewError;
pub use nm_edge::LAST_NUMBER;
pub use places::Places;
pub use queue::Queue;
pub use reply::{Refused, Reply};
pub use trace::{RunError, Trace, Turn};
