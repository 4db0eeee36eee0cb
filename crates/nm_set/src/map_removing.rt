//! Removes that expect a value.
ghost use Rattle.std.specs.Prelude.{◌≡◌, ◌+◌, None};
ghost use Rattle.nm_set.specs.MapRemoves.{RemovesIn, RemovesOnce, SaysRemoveIf, SaysTryRemoveIf};

use crate::contents::Values;
use crate::managed::{Options, is_busy, is_unfinished};
use crate::member::Member;
use nm_edge::Key;
use nm_tree::{CallFault, RemoveOutcome};

impl Member<Values> {
    /// Removes `key` if it has the `expected` value; returns what it did, or why it changed
    /// nothing: `Tree::delete_if` of `nm_tree`. Proved (`takes`, in `says`): after `Removed`, and
    /// after `Unfinished`, this call has flagged a leaf, and right before that the map had the key
    /// with the expected value in this very leaf. So no other remove or put took this value. Proved
    /// (`other`): the value of `Other` is not the expected one, and the map had the key with it at
    /// a moment of the call. The value of a key that is removed comes back by `reclaim`, once
    /// nobody can read it.
    ///
    /// Like `remove`, it finishes the remove of an earlier call first, and retries a remove that
    /// lost each of its tries. One that has flagged its leaf goes on by a call of `finish` with the
    /// tries of `rounds` and one rounds. It frees no node.
    ///
    /// Errors: those of `remove`. After `Unfinished` the key is pending, and the next managed call
    /// finishes it first.
    pub fn remove_if(
        &mut self,
        key: Key,
        expected: u64,
        options: &Options,
    ) -> Result<RemoveOutcome, CallFault>
        ensures tree { self.new.tree ≡ self.old.tree }
        ensures says { SaysRemoveIf self.old.tree options.now key expected self.old.worker
            self.new.worker result }
    {
        if self.pinned().is_some() {
            return Err(CallFault::Pinned);
        }
        let Ok(_done) = self.finish_with_retries(options) else {
            return Err(CallFault::Pending);
        };
        self.know_run();
        let told = self.remove_if_with_retries(key, expected, options);
        if !is_unfinished(&told) {
            return told;
        }
        match self.finish_with_retries(options) {
            Ok(removed) => Ok(RemoveOutcome::of(removed)),
            Err(fault) => Err(fault),
        }
    }

    /// Removes `key` if it has the `expected` value, as `remove_if` does, with one call of
    /// `Tree::delete_if` of `nm_tree`.
    ///
    /// Errors: `Pinned`: the caller has pinned the worker; and those of the tree.
    pub fn try_remove_if(
        &mut self,
        key: Key,
        expected: u64,
        tries: u32,
    ) -> Result<RemoveOutcome, CallFault>
        ensures tree { self.new.tree ≡ self.old.tree }
        ensures says { SaysTryRemoveIf self.old.tree.layout tries key expected self.old.worker
            self.new.worker result }
    {
        if self.sealed.worker.held().is_some() {
            return Err(CallFault::Pinned);
        }
        self.home
            .tree()
            .delete_if(&mut self.sealed.worker, key, expected, tries)
    }

    /// Removes until a remove does not lose each of its tries: at most `rounds` and one times.
    fn remove_if_with_retries(
        &mut self,
        key: Key,
        expected: u64,
        options: &Options,
    ) -> Result<RemoveOutcome, CallFault>
        requires free { self.old.worker.held ≡ None }
        requires none { self.old.worker.pending ≡ None }
        ensures tree { self.new.tree ≡ self.old.tree }
        ensures says { RemovesIn self.old.tree options.now key expected (options.now.rounds + 1)
            self.old.worker self.new.worker result }
    {
        for _round in 0..options.rounds {
            let told = self.remove_if_once(key, expected, options.tries);
            if !is_busy(&told) {
                return told;
            }
        }
        self.remove_if_once(key, expected, options.tries)
    }

    /// Makes one such call of the tree.
    #[cold]
    #[inline(never)]
    fn remove_if_once(
        &mut self,
        key: Key,
        expected: u64,
        tries: u32,
    ) -> Result<RemoveOutcome, CallFault>
        requires free { self.old.worker.held ≡ None }
        requires none { self.old.worker.pending ≡ None }
        ensures tree { self.new.tree ≡ self.old.tree }
        ensures says { RemovesOnce self.old.tree.layout tries key expected self.old.worker
            self.new.worker result }
    {
        self.home
            .tree()
            .delete_if(&mut self.sealed.worker, key, expected, tries)
    }
}
