//! Pins and the global epoch: pinning, advancing and collecting.
//!
//! A worker pins an epoch before it walks, so that no slot to which it may come is reused. The
//! epoch advances only if each worker that announces an epoch announces the current one
//! (epoch-based reclamation: Fraser, Practical lock-freedom, 2004, chapter 5).
#![tactic(auto, using(nm_steps::proofs::Seeing::seen_all))]

mod answers;
mod collecting;
mod handing;
mod leaving;
mod looking;
mod moving;
mod pinning;
mod watching;

pub use answers::{Advance, Behind, Moved};
pub use collecting::{Collected, Entry, HeldQueue, Tally, collect};
pub use handing::{HandedOut, collect_values};
pub use leaving::{label, unpin, unpin_with};
pub use moving::advance;
pub use pinning::{pin, pin_for};
pub use watching::behind;
