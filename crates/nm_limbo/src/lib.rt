//! A queue over raw memory: a singly linked list of blocks, each with room for 32 items.
//!
//! Only `reserve` takes memory. A block is used again once its items are popped, and `shrink_to`
//! gives empty blocks back. An item never moves: it stays at the place to which it was pushed until
//! it is popped.
#![tactic(auto)]

mod block;
mod list;
mod queue;

// A crate can name a queue in a contract only if the types of its fields are exported.
#[doc(hidden)]
pub use block::BlockPtr;
pub use block::Receipt;
#[doc(hidden)]
pub use block::chain::Chain;
#[doc(hidden)]
pub use list::BlockList;
pub use queue::{BlockQueue, NoMemory};

#[cfg(test)]
mod tests;
