//! Puts: managed calls of a map that give a key another value, or insert it.
ghost use Rattle.std.specs.Prelude.{◌≡◌, ◌+◌, None};
ghost use Rattle.nm_set.specs.MapPuts.{PutsIn, SaysManagedPut, SaysTryPut};

use crate::contents::Values;
use crate::managed::{Options, is_busy};
use crate::member::Member;
use nm_edge::Key;
use nm_tree::{CallFault, Condition, PutOutcome};

impl Member<Values> {
    /// Gives `key` the value, if the condition holds; returns what it did, or why it changed
    /// nothing: `Tree::put` of `nm_tree`. Proved (`map`, in `says`): what the result says of the
    /// map was so at a moment of the call. A key that has its value replaced is never absent.
    ///
    /// Like `get`, it finishes the remove of an earlier call first, and retries a put that lost
    /// each of its tries, at most `rounds` times. It frees no node (`frees`). A value that it
    /// replaced comes back by `reclaim`, once nobody can read it. Nothing is pending after a
    /// result, `Busy`, `Full` and `NoMemory`.
    ///
    /// Errors: `Pinned`, `Pending`: as of `get`. `Busy`: each put lost each of its tries, or the
    /// options allow none. Proved (`busy`): other workers have meanwhile interfered at least that
    /// often. `Full`: no slot was free for a new node. Proved: the call tried each slot, and got
    /// none. Call `reclaim`, take the values that it writes, and put again. `NoMemory`: the memory
    /// for a try was refused. Proved: the worker's own queue then has less room than a try needs.
    /// Proved (`alone`): no other error, as for `insert`, if no other worker has a remove pending.
    pub fn put(
        &mut self,
        key: Key,
        value: u64,
        condition: Condition,
        options: &Options,
    ) -> Result<PutOutcome, CallFault>
        ensures tree { self.new.tree ≡ self.old.tree }
        ensures says { SaysManagedPut self.old.tree options.now condition key value self.old.worker
            self.new.worker result }
    {
        if self.pinned().is_some() {
            return Err(CallFault::Pinned);
        }
        let Ok(_done) = self.finish_with_retries(options) else {
            return Err(CallFault::Pending);
        };
        self.put_with_retries(key, value, condition, options)
    }

    /// Gives `key` the value, if the condition holds, as `put` does, with one call of `Tree::put`
    /// of `nm_tree`.
    ///
    /// Errors: `Pinned`: the caller has pinned the worker; and those of the tree.
    pub fn try_put(
        &mut self,
        key: Key,
        value: u64,
        condition: Condition,
        tries: u32,
    ) -> Result<PutOutcome, CallFault>
        ensures tree { self.new.tree ≡ self.old.tree }
        ensures says { SaysTryPut self.old.tree.layout tries condition key value self.old.worker
            self.new.worker result }
    {
        if self.sealed.worker.held().is_some() {
            return Err(CallFault::Pinned);
        }
        self.home
            .tree()
            .put(&mut self.sealed.worker, key, value, condition, tries)
    }

    /// Puts until a put does not lose each of its tries: at most `rounds` and one times.
    fn put_with_retries(
        &mut self,
        key: Key,
        value: u64,
        condition: Condition,
        options: &Options,
    ) -> Result<PutOutcome, CallFault>
        requires free { self.old.worker.held ≡ None }
        requires none { self.old.worker.pending ≡ None }
        ensures tree { self.new.tree ≡ self.old.tree }
        ensures says { PutsIn self.old.tree options.now condition key value (options.now.rounds + 1)
            self.old.worker self.new.worker result }
    {
        for _round in 0..options.rounds {
            let told = self.try_put(key, value, condition, options.tries);
            if !is_busy(&told) {
                return told;
            }
        }
        self.try_put(key, value, condition, options.tries)
    }
}
