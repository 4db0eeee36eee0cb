//! Pops of the least and of the greatest key, of all keys or of those up to a bound.
ghost use Rattle.std.specs.Prelude.{◌≡◌, ◌<◌, ◌≤◌, true, false, None};
ghost use Rattle.nm_edge.specs.Keys.{IsKey};
ghost use Rattle.nm_tree.specs.Calls.{MayCall};
ghost use Rattle.nm_tree.specs.Popping.{Finds, GoesInRounds, IsOutside, LeavesPop, LeavesPopFirst, LeavesPopFirstBelow, LeavesPopLast, LeavesPopLastFrom, SaysPop, SaysPopOf, among};

use crate::tree::Tree;
use crate::worker::Worker;
use nm_calls::CallFault;
use nm_edge::{Key, MOST_KEY};

/// An end of a set, or of a part of it: the key that a pop takes.
#[derive(Clone, Copy, Debug)]
pub enum End {
    /// The least key.
    First,
    /// The least key, if it is below this bound.
    FirstBelow(u64),
    /// The greatest key.
    Last,
    /// The greatest key, if it is not below this bound.
    LastFrom(u64),
}

impl End {
    /// Returns whether a pop at this end may take the key.
    pub fn has(self, key: Key) -> bool
        ensures yes { result ≡ true → among self key }
        ensures no { result ≡ false → IsOutside self key }
    {
        match self {
            End::First | End::Last => {
                let _key = key.get();
                true
            }
            End::FirstBelow(below) => key.get() < below,
            End::LastFrom(from) => from <= key.get(),
        }
    }
}

impl Tree {
    /// Removes the least key and returns it. It finds the key as `next` does, and deletes it. If
    /// another worker has deleted the key in between, it looks for the least key once more, in at
    /// most `tries` rounds. The caller must not have pinned the worker.
    ///
    /// `Some(key)`: this call deleted the key, at a moment (linearization point) of this call. For
    /// each lesser key there was a moment of this call at which the set did not have it. `None`: so
    /// it was for each key. Two keys may have different moments. So the call passes over no key
    /// that was in the set all the time, but it may pass over one that was inserted meanwhile. Each
    /// moment is later than all that the worker had seen before.
    ///
    /// Errors: `Pending`, `NoMemory`: see `CallFault`. `Unfinished`: the leaf of the least key is
    /// flagged, and the key is pending; `finish` goes on. It was in the set at a moment of this
    /// call, and each lesser key was absent at one. `Busy`, for one of these reasons:
    /// - `tries` is 0; then there was no step.
    /// - In each of `tries` rounds the key that was found was not there to be deleted.
    /// - `next` or `delete` was busy; each of them has `tries` tries.
    ///
    /// Proved (`alone`), if no other worker has a delete pending before the call or makes a
    /// transition during it: a call with at least two tries is not `Busy`, and is `Unfinished` only
    /// if the room of a try was refused.
    ///
    /// Cost: at most `tries` * (`tries` * (7 `reach` + 516) + 12) steps. A walk's reach is 66 nodes
    /// in a radix tree, and the number of nodes otherwise. (The search and the delete of Natarajan
    /// and Mittal, section 3.2; the name of Rust's `BTreeSet`.)
    pub fn pop_first(&self, worker: &mut Worker, tries: u32) -> Result<Option<Key>, CallFault>
        requires { MayCall self.now worker.old }
        ensures says { SaysPop ◌<◌ self.now.layout tries worker.old worker.new result }
        ensures leaves { LeavesPopFirst self.now.layout tries worker.old worker.new result }
    {
        self.pop(worker, End::First, tries)
    }

    /// Removes the greatest key and returns it. It is like `pop_first`, but finds the key as `prev`
    /// does: each greater key was absent at a moment of this call.
    pub fn pop_last(&self, worker: &mut Worker, tries: u32) -> Result<Option<Key>, CallFault>
        requires { MayCall self.now worker.old }
        ensures says { SaysPop (λ j key. key < j) self.now.layout tries worker.old worker.new
            result }
        ensures leaves { LeavesPopLast self.now.layout tries worker.old worker.new result }
    {
        self.pop(worker, End::Last, tries)
    }

    /// Removes the least key, if it is below `below`, and returns it. It is like `pop_first`, but
    /// `None` says of each key below the bound alone that the set did not have it, at a moment of
    /// this call. A key that is not below the bound stays.
    pub fn pop_first_below(
        &self,
        worker: &mut Worker,
        below: u64,
        tries: u32,
    ) -> Result<Option<Key>, CallFault>
        requires { MayCall self.now worker.old }
        ensures says { SaysPopOf (λ j. IsKey j × (j < below)) ◌<◌ self.now.layout tries worker.old
            worker.new result }
        ensures leaves { LeavesPopFirstBelow below self.now.layout tries worker.old worker.new
            result }
    {
        self.pop(worker, End::FirstBelow(below), tries)
    }

    /// Removes the greatest key, if it is not below `from`, and returns it. It is like `pop_last`,
    /// but `None` says of each key from the bound on alone that the set did not have it, at a moment
    /// of this call. A key below the bound stays.
    pub fn pop_last_from(
        &self,
        worker: &mut Worker,
        from: u64,
        tries: u32,
    ) -> Result<Option<Key>, CallFault>
        requires { MayCall self.now worker.old }
        ensures says { SaysPopOf (λ j. IsKey j × (from ≤ j)) (λ j key. key < j) self.now.layout tries
            worker.old worker.new result }
        ensures leaves { LeavesPopLastFrom from self.now.layout tries worker.old worker.new result }
    {
        self.pop(worker, End::LastFrom(from), tries)
    }

    /// Pops the key at that end, if no key is pending.
    fn pop(&self, worker: &mut Worker, end: End, tries: u32) -> Result<Option<Key>, CallFault>
        requires { MayCall self.now worker.old }
        ensures { LeavesPop end self.now.layout tries worker.old worker.new result }
    {
        if worker.pending().is_some() {
            return Err(CallFault::Pending);
        }
        worker.know_run();
        let taken = self.pop_in_rounds(worker, end, tries);
        worker.know_run();
        taken
    }

    /// Finds the key at that end and deletes it, in rounds, until this call has deleted one, or
    /// finds none that it may take.
    fn pop_in_rounds(
        &self,
        worker: &mut Worker,
        end: End,
        tries: u32,
    ) -> Result<Option<Key>, CallFault>
        requires may { MayCall self.now worker.old }
        ensures { GoesInRounds end self.now.layout tries worker.old worker.new result }
    {
        for _round in 0..tries {
            let Some(key) = self.key_at(worker, end, tries)? else {
                return Ok(None);
            };
            if !end.has(key) {
                return Ok(None);
            }
            if self.delete(worker, key, tries)? {
                return Ok(Some(key));
            }
        }
        Err(CallFault::Busy)
    }

    /// Returns the key at that end that its walks find.
    fn key_at(&self, worker: &mut Worker, end: End, tries: u32) -> Result<Option<Key>, CallFault>
        requires { MayCall self.now worker.old }
        ensures { Finds end self.now.layout tries worker.old worker.new result }
    {
        match end {
            End::First | End::FirstBelow(_) => self.next(worker, Key::new(0).unwrap(), tries),
            End::Last | End::LastFrom(_) => self.prev(worker, Key::new(MOST_KEY).unwrap(), tries),
        }
    }
}
