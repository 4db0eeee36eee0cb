//! The set as values that own what they need, so that calls have no condition. A `Set` gives out
//! its `Member`s, one for each worker, and each member keeps the tree alive. The worker of a closed
//! member is returned, and any thread can take it again.
//!
//! A caller of `nm_tree` has to show that a worker is one of the tree's. Here a member's type says
//! so. What may be wrong while a program runs is returned as an error, before any step.
#![tactic(auto)]

mod attach;
mod contents;
mod ending;
mod fault;
mod filling;
mod gathering;
mod home;
mod lease;
mod managed;
mod map_calls;
mod map_managed;
mod map_popping;
mod map_putting;
mod map_removing;
mod map_scanning;
mod member;
mod opening;
mod popping;
mod posting;
mod returning;
mod scanning;
mod seat;
mod set;

pub use contents::{Contents, Keys, Values};
pub use ending::EndError;
pub use fault::{Fullness, InsertFault, MemberFault, NotPinned, ObserveFault, PinnedGetFault};
pub use filling::{OfKeysError, SetOfKeys};
pub use managed::Options;
pub use map_calls::MapMember;
pub use map_managed::Reclaimed;
pub use member::{Member, ResignError};
pub use nm_tree::{
    Advance, Behind, CallFault, CloseReason, Collected, Condition, Counts, Entry, Fit, HandedOut,
    HeldQueue, MapEntry, MapReport, MapValues, NewError, PinFault, PutOutcome, Query,
    RemoveOutcome, Report, ResignReason, Scanned, Tally,
};
pub use posting::{Stamp, letters_are_in_order};
pub use returning::{ReturnedMapWorker, ReturnedWorker};
pub use set::{CloseError, KeepError, KeepReturnedError, Map, Set};
