//! Pops by any thread, each by a worker that is borrowed for that call.
ghost use Rattle.std.specs.Prelude.{◌≡◌, ◌<◌, ◌≤◌, IfSome, IfNone};
ghost use Rattle.nm_edge.specs.Keys.{IsKey};
ghost use Rattle.nm_shared.specs.Sharing.{IsCallerOf, NoneWasFree, SaysSharedPop};

use crate::shared_set::{Caller, SharedSet};
use nm_edge::Key;
use nm_set::{CallFault, Keys, Options};

impl SharedSet<Keys> {
    /// Removes the least key, and returns it: `Member::pop_first` of `nm_set`, by a worker that no other
    /// call has. `None` in place of a result: each worker was found borrowed, one after the other; nothing
    /// has changed.
    ///
    /// Errors: those of `Member::pop_first`, except `Pinned`; `Unfinished` as of `remove`.
    pub fn pop_first(
        &self,
        caller: Caller,
        options: &Options,
    ) -> (Caller, Option<Result<Option<Key>, CallFault>>)
        requires own { IsCallerOf self.now caller }
        ensures own { IsCallerOf self.now result.0 }
        ensures says { IfSome result.1
            (SaysSharedPop IsKey ◌<◌ self.now options.now caller result.0) }
        ensures refused { IfNone result.1 (NoneWasFree self.now caller result.0) }
    {
        match self.borrow(caller) {
            Ok((worker, loan)) => {
                let mut worker = worker;
                let told = worker.member.pop_first(options);
                (self.give_back(loan, worker), Some(told))
            }
            Err(caller) => (caller, None),
        }
    }

    /// Removes the greatest key, and returns it: `Member::pop_last`, in the same way.
    ///
    /// Errors: as of `pop_first`.
    pub fn pop_last(
        &self,
        caller: Caller,
        options: &Options,
    ) -> (Caller, Option<Result<Option<Key>, CallFault>>)
        requires own { IsCallerOf self.now caller }
        ensures own { IsCallerOf self.now result.0 }
        ensures says { IfSome result.1
            (SaysSharedPop IsKey (λ j key. key < j) self.now options.now caller result.0) }
        ensures refused { IfNone result.1 (NoneWasFree self.now caller result.0) }
    {
        match self.borrow(caller) {
            Ok((worker, loan)) => {
                let mut worker = worker;
                let told = worker.member.pop_last(options);
                (self.give_back(loan, worker), Some(told))
            }
            Err(caller) => (caller, None),
        }
    }

    /// Removes the least key that is below `below`, and returns it: `Member::pop_first_below`, in the
    /// same way.
    ///
    /// Errors: as of `pop_first`.
    pub fn pop_first_below(
        &self,
        caller: Caller,
        below: u64,
        options: &Options,
    ) -> (Caller, Option<Result<Option<Key>, CallFault>>)
        requires own { IsCallerOf self.now caller }
        ensures own { IsCallerOf self.now result.0 }
        ensures says { IfSome result.1 (SaysSharedPop (λ j. IsKey j × (j < below)) ◌<◌ self.now
            options.now caller result.0) }
        ensures refused { IfNone result.1 (NoneWasFree self.now caller result.0) }
    {
        match self.borrow(caller) {
            Ok((worker, loan)) => {
                let mut worker = worker;
                let told = worker.member.pop_first_below(below, options);
                (self.give_back(loan, worker), Some(told))
            }
            Err(caller) => (caller, None),
        }
    }

    /// Removes the greatest key that is not below `from`, and returns it: `Member::pop_last_from`, in
    /// the same way.
    ///
    /// Errors: as of `pop_first`.
    pub fn pop_last_from(
        &self,
        caller: Caller,
        from: u64,
        options: &Options,
    ) -> (Caller, Option<Result<Option<Key>, CallFault>>)
        requires own { IsCallerOf self.now caller }
        ensures own { IsCallerOf self.now result.0 }
        ensures says { IfSome result.1 (SaysSharedPop (λ j. IsKey j × (from ≤ j))
            (λ j key. key < j) self.now options.now caller result.0) }
        ensures refused { IfNone result.1 (NoneWasFree self.now caller result.0) }
    {
        match self.borrow(caller) {
            Ok((worker, loan)) => {
                let mut worker = worker;
                let told = worker.member.pop_last_from(from, options);
                (self.give_back(loan, worker), Some(told))
            }
            Err(caller) => (caller, None),
        }
    }
}
