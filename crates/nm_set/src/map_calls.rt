//! Calls of a map's member that read, store or hand out values.
ghost use Rattle.std.specs.Prelude.{◌≡◌, true, Ok};
ghost use Rattle.nm_calls.specs.MapHistories.{AreOfMaps};
ghost use Rattle.nm_calls.specs.Maps.{HasPut, HasTaken};
ghost use Rattle.nm_tree.specs.Answers.{IfTaken};
ghost use Rattle.nm_tree.specs.Calls.{LeavesGet};
ghost use Rattle.nm_set.specs.Asked.{Asked, SaysTryInsert, SaysTryRemove};
ghost use Rattle.nm_set.specs.Maps.{FindsValue, HandsInto, SaysPinnedGet, SaysPinnedGetMany, of_pinned};
ghost use Rattle.nm_set.specs.NextKeys.{AskedNext, AskedPrev};

use crate::contents::Values;
use crate::fault::PinnedGetFault;
use crate::member::Member;
use nm_edge::Key;
use nm_tree::{CallFault, HandedOut, Query};

/// One worker of a map. Each leaf that is freed before the end of the map has its value handed out,
/// because a member of a map has no call that frees a leaf without that.
pub type MapMember = Member<Values>;

/// Converts the result of a look-up under the caller's pin.
fn of_pinned<T>(answer: Result<T, CallFault>) -> Result<T, PinnedGetFault>
    ensures { result ≡ of_pinned answer }
{
    match answer {
        Ok(found) => Ok(found),
        Err(_) => Err(PinnedGetFault::Busy),
    }
}

impl Member<Values> {
    /// Proof only: establishes what the laws of maps say of all that the worker has seen, like
    /// `Worker::know_map` of `nm_tree`. No run-time effect.
    pub fn know_map(&self)
        ensures { AreOfMaps self.now.worker.pass.view.layout self.now.worker.pass.view.past }
    {
        self.know_run();
    }

    /// Returns the value that the map has under `key`, or `None` if it does not have the key:
    /// `Tree::get` of `nm_tree`.
    ///
    /// Errors: `Pinned`: the caller has pinned the worker; and those of the tree.
    #[inline(always)]
    pub fn try_get(&mut self, key: Key, tries: u32) -> Result<Option<u64>, CallFault>
        ensures tree { self.new.tree ≡ self.old.tree }
        ensures says { Asked (LeavesGet self.old.tree.layout tries key) self.old.worker
            self.new.worker result }
    {
        if self.sealed.worker.held().is_some() {
            return Err(CallFault::Pinned);
        }
        self.home.tree().get(&mut self.sealed.worker, key, tries)
    }

    /// Returns the least key of the map that is not below `key`, like `next`, and writes its value
    /// to `value`: `Tree::next_with_value` of `nm_tree`. Proved (`finds`): the map had the key that
    /// is returned with this value at a moment of the call. After any other result `value` may be
    /// anything.
    ///
    /// Errors: those of `next`.
    pub fn next_with_value(
        &mut self,
        key: Key,
        value: &mut u64,
        tries: u32,
    ) -> Result<Option<Key>, CallFault>
        ensures tree { self.new.tree ≡ self.old.tree }
        ensures says { AskedNext self.old.tree.layout tries key self.old.worker self.new.worker
            result }
        ensures finds { FindsValue self.old.worker.pass self.new.worker.pass value.new result }
    {
        if self.sealed.worker.held().is_some() {
            return Err(CallFault::Pinned);
        }
        self.home
            .tree()
            .next_with_value(&mut self.sealed.worker, key, value, tries)
    }

    /// Returns the greatest key of the map that is not above `key`, like `prev`, and writes its
    /// value to `value`, like `next_with_value`.
    ///
    /// Errors: those of `prev`.
    pub fn prev_with_value(
        &mut self,
        key: Key,
        value: &mut u64,
        tries: u32,
    ) -> Result<Option<Key>, CallFault>
        ensures tree { self.new.tree ≡ self.old.tree }
        ensures says { AskedPrev self.old.tree.layout tries key self.old.worker self.new.worker
            result }
        ensures finds { FindsValue self.old.worker.pass self.new.worker.pass value.new result }
    {
        if self.sealed.worker.held().is_some() {
            return Err(CallFault::Pinned);
        }
        self.home
            .tree()
            .prev_with_value(&mut self.sealed.worker, key, value, tries)
    }

    /// Inserts `key` with `value`; returns true if the key was absent. Otherwise the key keeps its
    /// value. Proved (`puts`): if the result is `Ok(true)`, the map had the key with the value at a
    /// moment of the call. It is `Tree::insert_with_value` of `nm_tree`.
    ///
    /// Errors: `Pinned`: the caller has pinned the worker; and those of the tree.
    #[inline(always)]
    pub fn try_insert(&mut self, key: Key, value: u64, tries: u32) -> Result<bool, CallFault>
        ensures tree { self.new.tree ≡ self.old.tree }
        ensures says { SaysTryInsert self.old.tree.layout tries key self.old.worker self.new.worker
            result }
        ensures puts { result ≡ Ok true → HasPut self.old.worker.pass self.new.worker.pass key
            value }
    {
        if self.sealed.worker.held().is_some() {
            return Err(CallFault::Pinned);
        }
        let mut found = 0;
        self.home
            .tree()
            .insert_with_value(&mut self.sealed.worker, key, value, &mut found, tries)
    }

    /// Removes `key` as `try_remove` does, and writes the value that it had to `taken` if it
    /// returns true or `Unfinished`: `Tree::delete_with_value` of `nm_tree`. Proved (`takes`): this
    /// call has flagged a leaf, and right before that the map had the key with this value in this
    /// very leaf. The value comes back by `collect` too.
    ///
    /// Errors: those of `try_remove`.
    #[inline(always)]
    pub fn try_take(&mut self, key: Key, taken: &mut u64, tries: u32) -> Result<bool, CallFault>
        ensures tree { self.new.tree ≡ self.old.tree }
        ensures says { SaysTryRemove self.old.tree.layout tries key self.old.worker self.new.worker
            result }
        ensures takes { IfTaken result (HasTaken self.old.worker.pass self.new.worker.pass key
            taken.new) }
    {
        if self.sealed.worker.held().is_some() {
            return Err(CallFault::Pinned);
        }
        self.home
            .tree()
            .delete_with_value(&mut self.sealed.worker, key, taken, tries)
    }

    /// Returns the value that the map has under `key`, or `None` if it does not have the key, to a
    /// member that its caller has pinned: `Tree::get_pinned` of `nm_tree`. Proved (`says`): it was
    /// so at a moment of this call. The value does not come back before `unpin`, so until then the
    /// caller may use what it refers to.
    ///
    /// Errors: `NotPinned`: the caller has not pinned the worker. `Busy`: see `PinnedGetFault`.
    #[inline(always)]
    pub fn get_pinned(&mut self, key: Key) -> Result<Option<u64>, PinnedGetFault>
        ensures tree { self.new.tree ≡ self.old.tree }
        ensures says { SaysPinnedGet self.old.tree.layout key self.old.worker self.new.worker
            result }
    {
        if self.sealed.worker.held().is_none() {
            return Err(PinnedGetFault::NotPinned);
        }
        let answer = self.home.tree().get_pinned(&mut self.sealed.worker, key);
        of_pinned(answer)
    }

    /// Looks up the value of each of these keys like `get_pinned`, and writes the answers into
    /// their `found` and `value`: `Tree::get_many_pinned` of `nm_tree`. Proved (`says`): each
    /// answer was right at a moment of this call. No value that it finds comes back before `unpin`.
    ///
    /// Errors: no answer means anything then. `NotPinned`: the caller has not pinned the worker;
    /// the queries are unchanged. `Busy`: see `PinnedGetFault`.
    pub fn get_many_pinned(&mut self, queries: &mut [Query]) -> Result<(), PinnedGetFault>
        ensures tree { self.new.tree ≡ self.old.tree }
        ensures says { SaysPinnedGetMany self.old.tree.layout queries.old queries.new self.old.worker
            self.new.worker result }
    {
        if self.sealed.worker.held().is_none() {
            return Err(PinnedGetFault::NotPinned);
        }
        let answer = self
            .home
            .tree()
            .get_many_pinned(&mut self.sealed.worker, queries);
        of_pinned(answer)
    }

    /// Frees what has waited long enough at the front of each queue that the worker holds, and
    /// writes the value of each freed leaf to `out`: `Tree::collect_values` of `nm_tree`. It stops
    /// if `out` is full, and a later call goes on there. Proved (`says`): each value
    /// is the one that its leaf had right before the leaf was cut off, and all workers that were
    /// pinned then have unpinned since.
    pub fn collect(&mut self, out: &mut [u64]) -> HandedOut
        ensures tree { self.new.tree ≡ self.old.tree }
        ensures says { HandsInto self.old.tree.layout.nodes out.old out.new self.old.worker
            self.new.worker result }
    {
        self.home
            .tree()
            .collect_values(&mut self.sealed.worker, out)
    }
}
