//! Calls of a map by any thread, each by a worker that is borrowed for that call.
ghost use Rattle.std.specs.Prelude.{◌≡◌, ◌<◌, ◌≤◌, IfSome, IfNone, IsSome};
ghost use Rattle.nm_edge.specs.Keys.{IsKey};
ghost use Rattle.nm_edge.specs.declared.edge.Side.TheVariants.{Left, Right};
ghost use Rattle.nm_shared.specs.SharedMaps.{AsksUnderPin, GetsMany, of_pin};
ghost use Rattle.nm_shared.specs.SharedMaps.{SaysSharedEntries, SaysSharedGet, SaysSharedGetMany, SaysSharedInsert, SaysSharedNextEntry, SaysSharedPopEntry, SaysSharedPrevEntry, SaysSharedPut, SaysSharedReclaim, SaysSharedRemoveIf, SaysSharedTake};
ghost use Rattle.nm_shared.specs.Sharing.{IsCallerOf, NoneWasFree};

use crate::shared_set::{Caller, SharedSet};
use nm_edge::Key;
use nm_set::{
    CallFault, Condition, MapEntry, Member, Options, PinFault, PutOutcome, Query, Reclaimed,
    RemoveOutcome, Scanned, Values,
};

/// Returns the fault of a call whose worker was not pinned.
fn of_pin_fault(fault: PinFault) -> CallFault
    ensures { result ≡ of_pin fault }
{
    match fault {
        PinFault::Moved { epoch: _ } => CallFault::Busy,
        PinFault::Pending => CallFault::Pending,
        PinFault::Pinned => CallFault::Pinned,
    }
}

/// Looks up the values of these keys by a worker that is pinned, and unpins it.
fn get_and_unpin(member: &mut Member<Values>, queries: &mut [Query]) -> Result<(), CallFault>
    requires held { IsSome member.old.worker.held }
    ensures tree { member.new.tree ≡ member.old.tree }
    ensures says { AsksUnderPin member.old.tree.layout queries.old queries.new member.old.worker
        member.new.worker result }
{
    let told = member.get_many_pinned(queries);
    let _unpinned = member.unpin();
    match told {
        Ok(()) => Ok(()),
        Err(_) => Err(CallFault::Busy),
    }
}

/// Pins the worker, looks up the values of these keys under that pin, and unpins it.
fn get_under_pin(
    member: &mut Member<Values>,
    queries: &mut [Query],
    tries: u32,
) -> Result<(), CallFault>
    ensures tree { member.new.tree ≡ member.old.tree }
    ensures says { GetsMany member.old.tree.layout tries queries.old queries.new member.old.worker
        member.new.worker result }
{
    match member.pin(tries) {
        Ok(_) => get_and_unpin(member, queries),
        Err(fault) => Err(of_pin_fault(fault)),
    }
}

impl SharedSet<Values> {
    /// Returns the value that the map has under `key`: `MapMember::get` of `nm_set`, by a worker that
    /// no other call has. `None` in place of a result: each worker was found borrowed, one after the
    /// other; nothing has changed. The value may be reclaimed at once.
    ///
    /// Errors: those of `MapMember::get`, except `Pinned`.
    pub fn get(
        &self,
        caller: Caller<Values>,
        key: Key,
        options: &Options,
    ) -> (Caller<Values>, Option<Result<Option<u64>, CallFault>>)
        requires own { IsCallerOf self.now caller }
        ensures own { IsCallerOf self.now result.0 }
        ensures says { IfSome result.1 (SaysSharedGet self.now options.now key caller result.0) }
        ensures refused { IfNone result.1 (NoneWasFree self.now caller result.0) }
    {
        match self.borrow(caller) {
            Ok((worker, loan)) => {
                let mut worker = worker;
                let told = worker.member.get(key, options);
                (self.give_back(loan, worker), Some(told))
            }
            Err(caller) => (caller, None),
        }
    }

    /// Looks up the value of each of these keys, and writes the answers into their `found` and
    /// `value`: `MapMember::get_many_pinned`, between a pin and an unpin, in the same way. Proved
    /// (`says`): each answer was right at a moment of the call. One worker looks up all keys. A
    /// value may be reclaimed at once.
    ///
    /// Errors: no answer means anything then. `Busy`: the epoch moved on in each try, or the
    /// options allow none; or a walk had looked at as many nodes as there are, which never happens
    /// in a radix tree. `Pending`: the worker has not finished a remove; `get` finishes it.
    /// Cost: a pin, a walk for each key, and an unpin.
    pub fn get_many(
        &self,
        caller: Caller<Values>,
        queries: &mut [Query],
        options: &Options,
    ) -> (Caller<Values>, Option<Result<(), CallFault>>)
        requires own { IsCallerOf self.now caller }
        ensures own { IsCallerOf self.now result.0 }
        ensures says { IfSome result.1 (SaysSharedGetMany self.now options.now queries.old
            queries.new caller result.0) }
        ensures refused { IfNone result.1 (NoneWasFree self.now caller result.0
            × (queries.new ≡ queries.old)) }
    {
        match self.borrow(caller) {
            Ok((worker, loan)) => {
                let mut worker = worker;
                let told = get_under_pin(&mut worker.member, queries, options.tries);
                (self.give_back(loan, worker), Some(told))
            }
            Err(caller) => (caller, None),
        }
    }

    /// Inserts `key` with `value`; returns true if the key was absent, and otherwise writes the value
    /// that it keeps to `found`: `MapMember::insert`, in the same way.
    ///
    /// Errors: those of `MapMember::insert`, except `Pinned`. After `Full` call `reclaim` by each
    /// worker: a worker frees only what it has removed.
    pub fn insert(
        &self,
        caller: Caller<Values>,
        key: Key,
        value: u64,
        found: &mut u64,
        options: &Options,
    ) -> (Caller<Values>, Option<Result<bool, CallFault>>)
        requires own { IsCallerOf self.now caller }
        ensures own { IsCallerOf self.now result.0 }
        ensures says { IfSome result.1
            (SaysSharedInsert self.now options.now key value found.new caller result.0) }
        ensures refused { IfNone result.1 (NoneWasFree self.now caller result.0
            × (found.new ≡ found.old)) }
    {
        match self.borrow(caller) {
            Ok((worker, loan)) => {
                let mut worker = worker;
                let told = worker.member.insert(key, value, found, options);
                (self.give_back(loan, worker), Some(told))
            }
            Err(caller) => (caller, None),
        }
    }

    /// Gives `key` the value, if the condition holds; returns what it did, or why it changed nothing:
    /// `MapMember::put`, in the same way. A value that it replaced comes back by `reclaim`, once nobody
    /// can read it.
    ///
    /// Errors: those of `MapMember::put`, except `Pinned`. After `Full` call `reclaim` by each worker: a
    /// worker frees only what it has removed.
    pub fn put(
        &self,
        caller: Caller<Values>,
        key: Key,
        value: u64,
        condition: Condition,
        options: &Options,
    ) -> (Caller<Values>, Option<Result<PutOutcome, CallFault>>)
        requires own { IsCallerOf self.now caller }
        ensures own { IsCallerOf self.now result.0 }
        ensures says { IfSome result.1
            (SaysSharedPut self.now options.now condition key value caller result.0) }
        ensures refused { IfNone result.1 (NoneWasFree self.now caller result.0) }
    {
        match self.borrow(caller) {
            Ok((worker, loan)) => {
                let mut worker = worker;
                let told = worker.member.put(key, value, condition, options);
                (self.give_back(loan, worker), Some(told))
            }
            Err(caller) => (caller, None),
        }
    }

    /// Removes `key`; returns true if it was present, and writes the value that it had to `taken`:
    /// `MapMember::remove`, in the same way. The value comes back by `reclaim` too.
    ///
    /// Errors: those of `MapMember::remove`, except `Pinned`. After `Unfinished` the next call that
    /// borrows the same worker finishes the remove first.
    pub fn remove(
        &self,
        caller: Caller<Values>,
        key: Key,
        taken: &mut u64,
        options: &Options,
    ) -> (Caller<Values>, Option<Result<bool, CallFault>>)
        requires own { IsCallerOf self.now caller }
        ensures own { IsCallerOf self.now result.0 }
        ensures says { IfSome result.1
            (SaysSharedTake self.now options.now key taken.new caller result.0) }
        ensures refused { IfNone result.1 (NoneWasFree self.now caller result.0
            × (taken.new ≡ taken.old)) }
    {
        match self.borrow(caller) {
            Ok((worker, loan)) => {
                let mut worker = worker;
                let told = worker.member.remove(key, taken, options);
                (self.give_back(loan, worker), Some(told))
            }
            Err(caller) => (caller, None),
        }
    }

    /// Removes `key` if it has the `expected` value; returns what it did, or why it changed nothing:
    /// `MapMember::remove_if`, in the same way. The value of a key that is removed comes back by
    /// `reclaim`, once nobody can read it.
    ///
    /// Errors: those of `remove`.
    pub fn remove_if(
        &self,
        caller: Caller<Values>,
        key: Key,
        expected: u64,
        options: &Options,
    ) -> (Caller<Values>, Option<Result<RemoveOutcome, CallFault>>)
        requires own { IsCallerOf self.now caller }
        ensures own { IsCallerOf self.now result.0 }
        ensures says { IfSome result.1
            (SaysSharedRemoveIf self.now options.now key expected caller result.0) }
        ensures refused { IfNone result.1 (NoneWasFree self.now caller result.0) }
    {
        match self.borrow(caller) {
            Ok((worker, loan)) => {
                let mut worker = worker;
                let told = worker.member.remove_if(key, expected, options);
                (self.give_back(loan, worker), Some(told))
            }
            Err(caller) => (caller, None),
        }
    }

    /// Frees nodes that one worker has removed, and writes the value of each freed leaf to `out`:
    /// `MapMember::reclaim`, by any worker that no other call has.
    pub fn reclaim(
        &self,
        caller: Caller<Values>,
        out: &mut [u64],
    ) -> (Caller<Values>, Option<Reclaimed>)
        requires own { IsCallerOf self.now caller }
        ensures own { IsCallerOf self.now result.0 }
        ensures says { IfSome result.1
            (SaysSharedReclaim self.now out.old out.new caller result.0) }
        ensures refused { IfNone result.1 (NoneWasFree self.now caller result.0
            × (out.new ≡ out.old)) }
    {
        match self.borrow(caller) {
            Ok((worker, loan)) => {
                let mut worker = worker;
                let told = worker.member.reclaim(out);
                (self.give_back(loan, worker), Some(told))
            }
            Err(caller) => (caller, None),
        }
    }

    /// Removes the least key, returns it, and writes its value to `taken`: `MapMember::pop_first`, in
    /// the same way.
    ///
    /// Errors: those of `MapMember::pop_first`, except `Pinned`; `Unfinished` as of `remove`.
    pub fn pop_first(
        &self,
        caller: Caller<Values>,
        taken: &mut u64,
        options: &Options,
    ) -> (Caller<Values>, Option<Result<Option<Key>, CallFault>>)
        requires own { IsCallerOf self.now caller }
        ensures own { IsCallerOf self.now result.0 }
        ensures says { IfSome result.1
            (SaysSharedPopEntry IsKey ◌<◌ self.now options.now taken.new caller result.0) }
        ensures refused { IfNone result.1 (NoneWasFree self.now caller result.0
            × (taken.new ≡ taken.old)) }
    {
        match self.borrow(caller) {
            Ok((worker, loan)) => {
                let mut worker = worker;
                let told = worker.member.pop_first(taken, options);
                (self.give_back(loan, worker), Some(told))
            }
            Err(caller) => (caller, None),
        }
    }

    /// Removes the greatest key, like `pop_first`: `MapMember::pop_last`.
    ///
    /// Errors: as of `pop_first`.
    pub fn pop_last(
        &self,
        caller: Caller<Values>,
        taken: &mut u64,
        options: &Options,
    ) -> (Caller<Values>, Option<Result<Option<Key>, CallFault>>)
        requires own { IsCallerOf self.now caller }
        ensures own { IsCallerOf self.now result.0 }
        ensures says { IfSome result.1 (SaysSharedPopEntry IsKey (λ j key. key < j) self.now
            options.now taken.new caller result.0) }
        ensures refused { IfNone result.1 (NoneWasFree self.now caller result.0
            × (taken.new ≡ taken.old)) }
    {
        match self.borrow(caller) {
            Ok((worker, loan)) => {
                let mut worker = worker;
                let told = worker.member.pop_last(taken, options);
                (self.give_back(loan, worker), Some(told))
            }
            Err(caller) => (caller, None),
        }
    }

    /// Removes the least key that is below `below`, like `pop_first`: `MapMember::pop_first_below`.
    ///
    /// Errors: as of `pop_first`.
    pub fn pop_first_below(
        &self,
        caller: Caller<Values>,
        below: u64,
        taken: &mut u64,
        options: &Options,
    ) -> (Caller<Values>, Option<Result<Option<Key>, CallFault>>)
        requires own { IsCallerOf self.now caller }
        ensures own { IsCallerOf self.now result.0 }
        ensures says { IfSome result.1 (SaysSharedPopEntry (λ j. IsKey j × (j < below)) ◌<◌ self.now
            options.now taken.new caller result.0) }
        ensures refused { IfNone result.1 (NoneWasFree self.now caller result.0
            × (taken.new ≡ taken.old)) }
    {
        match self.borrow(caller) {
            Ok((worker, loan)) => {
                let mut worker = worker;
                let told = worker.member.pop_first_below(below, taken, options);
                (self.give_back(loan, worker), Some(told))
            }
            Err(caller) => (caller, None),
        }
    }

    /// Removes the greatest key that is not below `from`, like `pop_first`: `MapMember::pop_last_from`.
    ///
    /// Errors: as of `pop_first`.
    pub fn pop_last_from(
        &self,
        caller: Caller<Values>,
        from: u64,
        taken: &mut u64,
        options: &Options,
    ) -> (Caller<Values>, Option<Result<Option<Key>, CallFault>>)
        requires own { IsCallerOf self.now caller }
        ensures own { IsCallerOf self.now result.0 }
        ensures says { IfSome result.1 (SaysSharedPopEntry (λ j. IsKey j × (from ≤ j))
            (λ j key. key < j) self.now options.now taken.new caller result.0) }
        ensures refused { IfNone result.1 (NoneWasFree self.now caller result.0
            × (taken.new ≡ taken.old)) }
    {
        match self.borrow(caller) {
            Ok((worker, loan)) => {
                let mut worker = worker;
                let told = worker.member.pop_last_from(from, taken, options);
                (self.give_back(loan, worker), Some(told))
            }
            Err(caller) => (caller, None),
        }
    }

    /// Returns the least key that is not below `key`, and writes its value to `value`:
    /// `MapMember::next_with_value`, with the tries of the options, in the same way.
    ///
    /// Errors: those of `Member::next`, except `Pinned`.
    pub fn next_with_value(
        &self,
        caller: Caller<Values>,
        key: Key,
        value: &mut u64,
        options: &Options,
    ) -> (Caller<Values>, Option<Result<Option<Key>, CallFault>>)
        requires own { IsCallerOf self.now caller }
        ensures own { IsCallerOf self.now result.0 }
        ensures says { IfSome result.1
            (SaysSharedNextEntry self.now options.now key value.new caller result.0) }
        ensures refused { IfNone result.1 (NoneWasFree self.now caller result.0
            × (value.new ≡ value.old)) }
    {
        match self.borrow(caller) {
            Ok((worker, loan)) => {
                let mut worker = worker;
                let told = worker.member.next_with_value(key, value, options.tries);
                (self.give_back(loan, worker), Some(told))
            }
            Err(caller) => (caller, None),
        }
    }

    /// Returns the greatest key that is not above `key`, like `next_with_value`:
    /// `MapMember::prev_with_value`.
    ///
    /// Errors: as of `next_with_value`.
    pub fn prev_with_value(
        &self,
        caller: Caller<Values>,
        key: Key,
        value: &mut u64,
        options: &Options,
    ) -> (Caller<Values>, Option<Result<Option<Key>, CallFault>>)
        requires own { IsCallerOf self.now caller }
        ensures own { IsCallerOf self.now result.0 }
        ensures says { IfSome result.1
            (SaysSharedPrevEntry self.now options.now key value.new caller result.0) }
        ensures refused { IfNone result.1 (NoneWasFree self.now caller result.0
            × (value.new ≡ value.old)) }
    {
        match self.borrow(caller) {
            Ok((worker, loan)) => {
                let mut worker = worker;
                let told = worker.member.prev_with_value(key, value, options.tries);
                (self.give_back(loan, worker), Some(told))
            }
            Err(caller) => (caller, None),
        }
    }

    /// Writes the entries with a key from `from` on that is below `below` into `out`, in ascending
    /// order of the keys: `MapMember::scan_with_values`, in the same way.
    ///
    /// Errors: those of `Member::scan`, except `Pinned`. After an error `out` is unchanged.
    pub fn scan_with_values(
        &self,
        caller: Caller<Values>,
        from: Key,
        below: u64,
        out: &mut [MapEntry],
        options: &Options,
    ) -> (Caller<Values>, Option<Result<Scanned, CallFault>>)
        requires own { IsCallerOf self.now caller }
        ensures own { IsCallerOf self.now result.0 }
        ensures says { IfSome result.1 (SaysSharedEntries Right self.now options.now from below
            out.old out.new caller result.0) }
        ensures refused { IfNone result.1 (NoneWasFree self.now caller result.0
            × (out.new ≡ out.old)) }
    {
        match self.borrow(caller) {
            Ok((worker, loan)) => {
                let mut worker = worker;
                let told = worker
                    .member
                    .scan_with_values(from, below, out, options.tries);
                (self.give_back(loan, worker), Some(told))
            }
            Err(caller) => (caller, None),
        }
    }

    /// Writes the entries with a key from `from` down that is not below `least` into `out`, in
    /// descending order of the keys: `MapMember::scan_back_with_values`, in the same way.
    ///
    /// Errors: as of `scan_with_values`.
    pub fn scan_back_with_values(
        &self,
        caller: Caller<Values>,
        from: Key,
        least: u64,
        out: &mut [MapEntry],
        options: &Options,
    ) -> (Caller<Values>, Option<Result<Scanned, CallFault>>)
        requires own { IsCallerOf self.now caller }
        ensures own { IsCallerOf self.now result.0 }
        ensures says { IfSome result.1 (SaysSharedEntries Left self.now options.now from least
            out.old out.new caller result.0) }
        ensures refused { IfNone result.1 (NoneWasFree self.now caller result.0
            × (out.new ≡ out.old)) }
    {
        match self.borrow(caller) {
            Ok((worker, loan)) => {
                let mut worker = worker;
                let told = worker
                    .member
                    .scan_back_with_values(from, least, out, options.tries);
                (self.give_back(loan, worker), Some(told))
            }
            Err(caller) => (caller, None),
        }
    }
}
