//! Look-ups of the next key, of several keys and of ranges by any thread, each by a worker that is
//! borrowed for that call.
ghost use Rattle.std.specs.Prelude.{◌≡◌, IfSome, IfNone};
ghost use Rattle.nm_edge.specs.declared.edge.Side.TheVariants.{Left, Right};
ghost use Rattle.nm_shared.specs.Sharing.{IsCallerOf, NoneWasFree, SaysSharedMany, SaysSharedNext, SaysSharedPrev, SaysSharedScan};

use crate::shared_set::{Caller, SharedSet};
use nm_edge::Key;
use nm_set::{CallFault, Contents, Options, Query, Scanned};

impl<V: Contents> SharedSet<V> {
    /// Returns the least key of the set that is not below `key`: `Member::next` of `nm_set`, with the
    /// tries of the options, by a worker that no other call has. `None` in place of a result: each worker
    /// was found borrowed, one after the other; nothing has changed.
    ///
    /// Errors: those of `Member::next`, except `Pinned`.
    pub fn next(
        &self,
        caller: Caller<V>,
        key: Key,
        options: &Options,
    ) -> (Caller<V>, Option<Result<Option<Key>, CallFault>>)
        requires own { IsCallerOf self.now caller }
        ensures own { IsCallerOf self.now result.0 }
        ensures says { IfSome result.1 (SaysSharedNext self.now options.now key caller result.0) }
        ensures refused { IfNone result.1 (NoneWasFree self.now caller result.0) }
    {
        match self.borrow(caller) {
            Ok((worker, loan)) => {
                let mut worker = worker;
                let told = worker.member.next(key, options.tries);
                (self.give_back(loan, worker), Some(told))
            }
            Err(caller) => (caller, None),
        }
    }

    /// Returns the greatest key of the set that is not above `key`: `Member::prev`, in the same way.
    ///
    /// Errors: as of `next`.
    pub fn prev(
        &self,
        caller: Caller<V>,
        key: Key,
        options: &Options,
    ) -> (Caller<V>, Option<Result<Option<Key>, CallFault>>)
        requires own { IsCallerOf self.now caller }
        ensures own { IsCallerOf self.now result.0 }
        ensures says { IfSome result.1 (SaysSharedPrev self.now options.now key caller result.0) }
        ensures refused { IfNone result.1 (NoneWasFree self.now caller result.0) }
    {
        match self.borrow(caller) {
            Ok((worker, loan)) => {
                let mut worker = worker;
                let told = worker.member.prev(key, options.tries);
                (self.give_back(loan, worker), Some(told))
            }
            Err(caller) => (caller, None),
        }
    }

    /// Looks up each of these keys, and writes the answers into their `found`: `Member::contains_many`,
    /// in the same way. One worker looks up all keys.
    ///
    /// Errors: those of `Member::contains_many`, except `Pinned`.
    pub fn contains_many(
        &self,
        caller: Caller<V>,
        queries: &mut [Query],
        options: &Options,
    ) -> (Caller<V>, Option<Result<(), CallFault>>)
        requires own { IsCallerOf self.now caller }
        ensures own { IsCallerOf self.now result.0 }
        ensures says { IfSome result.1 (SaysSharedMany self.now options.now queries.old queries.new
            caller result.0) }
        ensures refused { IfNone result.1 (NoneWasFree self.now caller result.0
            × (queries.new ≡ queries.old)) }
    {
        match self.borrow(caller) {
            Ok((worker, loan)) => {
                let mut worker = worker;
                let told = worker.member.contains_many(queries, options.tries);
                (self.give_back(loan, worker), Some(told))
            }
            Err(caller) => (caller, None),
        }
    }

    /// Writes the keys from `from` on that are below `below` into `out`, in ascending order, and returns
    /// how many, and the key at which to continue: `Member::scan`, in the same way.
    ///
    /// Errors: those of `Member::scan`, except `Pinned`. After an error `out` is unchanged.
    pub fn scan(
        &self,
        caller: Caller<V>,
        from: Key,
        below: u64,
        out: &mut [u64],
        options: &Options,
    ) -> (Caller<V>, Option<Result<Scanned, CallFault>>)
        requires own { IsCallerOf self.now caller }
        ensures own { IsCallerOf self.now result.0 }
        ensures says { IfSome result.1 (SaysSharedScan Right self.now options.now from below out.old
            out.new caller result.0) }
        ensures refused { IfNone result.1 (NoneWasFree self.now caller result.0
            × (out.new ≡ out.old)) }
    {
        match self.borrow(caller) {
            Ok((worker, loan)) => {
                let mut worker = worker;
                let told = worker.member.scan(from, below, out, options.tries);
                (self.give_back(loan, worker), Some(told))
            }
            Err(caller) => (caller, None),
        }
    }

    /// Writes the keys from `from` down that are not below `least` into `out`, in descending order, and
    /// returns how many, and the key at which to continue: `Member::scan_back`, in the same way.
    ///
    /// Errors: as of `scan`.
    pub fn scan_back(
        &self,
        caller: Caller<V>,
        from: Key,
        least: u64,
        out: &mut [u64],
        options: &Options,
    ) -> (Caller<V>, Option<Result<Scanned, CallFault>>)
        requires own { IsCallerOf self.now caller }
        ensures own { IsCallerOf self.now result.0 }
        ensures says { IfSome result.1 (SaysSharedScan Left self.now options.now from least out.old
            out.new caller result.0) }
        ensures refused { IfNone result.1 (NoneWasFree self.now caller result.0
            × (out.new ≡ out.old)) }
    {
        match self.borrow(caller) {
            Ok((worker, loan)) => {
                let mut worker = worker;
                let told = worker.member.scan_back(from, least, out, options.tries);
                (self.give_back(loan, worker), Some(told))
            }
            Err(caller) => (caller, None),
        }
    }
}
