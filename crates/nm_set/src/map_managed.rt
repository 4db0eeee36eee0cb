//! Managed calls of a map: a call that lost its tries is retried, and a remove that has begun is
//! finished. Proved: they free no node. `MapMember::reclaim` does, and hands out the values.
ghost use Rattle.std.specs.Prelude.{◌≡◌, ◌+◌, true, false, None, Some, Ok, Err};
ghost use Rattle.nm_model.specs.declared.event.Op.TheVariants.{Insert, Delete};
ghost use Rattle.nm_steps.specs.Values.{HasValues};
ghost use Rattle.nm_calls.specs.Maps.{HasPut, MapGave};
ghost use Rattle.nm_tree.specs.Answers.{IfTaken};
ghost use Rattle.nm_tree.specs.Calls.{LeavesGet};
ghost use Rattle.nm_tree.specs.Workers.{WorkerView};
ghost use Rattle.nm_set.specs.Asked.{Asked};
ghost use Rattle.nm_set.specs.MapRounds.{GetsIn};
ghost use Rattle.nm_set.specs.Maps.{LeavesReclaim, ManagesGet, SaysChange, SaysGet, TookMeanwhile};

use crate::contents::{Contents, Values};
use crate::managed::{Options, behind_of, is_busy, is_pending, is_unfinished, without_one};
use crate::member::Member;
use nm_edge::Key;
use nm_model::Op;
use nm_tree::{CallFault, HandedOut};

/// What `MapMember::reclaim` did.
#[derive(Clone, Copy, Debug, PartialEq, Eq)]
pub struct Reclaimed {
    /// The epoch that was read, and how many values were written.
    pub handed: HandedOut,
    /// The worker that was found to hold the epoch back. It is the member's own if its caller has
    /// pinned it. `None`: no worker was found so. Then the epoch was advanced twice during the
    /// call, or it is the last one.
    pub behind: Option<u32>,
}

impl Member<Values> {
    /// Returns the value that the map has under `key`, or `None` if it does not have the key.
    ///
    /// Like `Member::contains`, it finishes the remove of an earlier call first, and retries a
    /// look-up that lost each of its tries, at most `rounds` times. It takes no memory for the
    /// look-up. Proved (`frees`, in `says`): it frees no node; nor does `insert` or `remove`.
    ///
    /// Errors: `Pinned`: the caller has pinned the worker; nothing has changed (`get_pinned` is for
    /// that). `Pending`: as of `Member::contains`. `Busy`: each look-up lost each of its tries, or
    /// the options allow none. Proved (`busy`): if they allow one, other workers have meanwhile
    /// advanced the epoch, or linked or cut off nodes, at least `rounds` and one times. Proved
    /// (`alone`): a call with at least one try is answered if no other worker makes a transition
    /// during it. The exception is that the room for the earlier remove is refused.
    #[inline(always)]
    pub fn get(&mut self, key: Key, options: &Options) -> Result<Option<u64>, CallFault>
        ensures tree { self.new.tree ≡ self.old.tree }
        ensures says { SaysGet self.old.tree options.now key self.old.worker self.new.worker result }
    {
        if self.pinned().is_some() {
            return Err(CallFault::Pinned);
        }
        match self
            .home
            .tree()
            .get(&mut self.sealed.worker, key, options.tries)
        {
            Ok(found) => Ok(found),
            Err(fault) => self.get_after(key, options, fault),
        }
    }

    /// Inserts `key` with `value`; returns true if the key was absent. Otherwise the key keeps its
    /// value, and the call writes this value to `found`. Proved (`puts`): if the result is
    /// `Ok(true)`, the map had the key with `value` at a moment of the call. Proved (`finds`): if
    /// the result is `Ok(false)`, the map had the key with the value in `found` at a moment of the
    /// call. After an error `found` may be anything.
    ///
    /// Like `get`, it finishes the remove of an earlier call first, and retries an insert that lost
    /// each of its tries. Nothing is pending after an answer, `Busy`, `Full` and `NoMemory`.
    ///
    /// Errors: `Pinned`, `Pending`, `Busy`: as of `get`. `Full`: no slot was free for a new node.
    /// Proved (`full`): the call tried each slot, and got none. Call `reclaim`, take the values
    /// that it writes, and insert again. `NoMemory`: the memory for a try was refused. Proved: the
    /// worker's own queue then has less room than a try needs. Proved (`alone`): no other error, as
    /// for `get`, if no other worker has a remove pending.
    #[inline(always)]
    pub fn insert(
        &mut self,
        key: Key,
        value: u64,
        found: &mut u64,
        options: &Options,
    ) -> Result<bool, CallFault>
        ensures tree { self.new.tree ≡ self.old.tree }
        ensures says { SaysChange Insert self.old.tree options.now key self.old.worker
            self.new.worker result }
        ensures puts { result ≡ Ok true → HasPut self.old.worker.pass self.new.worker.pass key
            value }
        ensures finds { result ≡ Ok false → MapGave self.old.worker.pass self.new.worker.pass key
            (Some found.new) }
    {
        self.know_run();
        if self.pinned().is_some() {
            return Err(CallFault::Pinned);
        }
        let Ok(_done) = self.finish_with_retries(options) else {
            return Err(CallFault::Pending);
        };
        self.ask_value_with_retries(Op::Insert, key, value, found, options)
    }

    /// Removes `key`; returns true if it was present, after the leaf with the key was cut off.
    /// Then, and after `Unfinished`, it has written the value that the key had to `taken`. Proved
    /// (`takes`): this call has flagged a leaf, and right before that the map had the key with this
    /// value in this very leaf. So it is the value of this remove in each history of the map
    /// (`taken_values_are_of_their_acts` of `nm_calls`). The value comes back by `reclaim` too, once
    /// nobody can read it.
    ///
    /// Like `get`, it finishes the remove of an earlier call first, and retries a remove that lost
    /// each of its tries. One that has flagged its leaf goes on by a call of `finish` with the tries
    /// of `rounds` and one rounds.
    ///
    /// Errors: those of `Member::remove`. After `Unfinished` the key is pending, and the next
    /// managed call finishes it first.
    #[inline(always)]
    pub fn remove(
        &mut self,
        key: Key,
        taken: &mut u64,
        options: &Options,
    ) -> Result<bool, CallFault>
        ensures tree { self.new.tree ≡ self.old.tree }
        ensures says { SaysChange Delete self.old.tree options.now key self.old.worker
            self.new.worker result }
        ensures takes { IfTaken result (TookMeanwhile self.old.worker.pass self.new.worker.pass key
            taken.new) }
    {
        self.know_run();
        self.remove_managed(key, taken, options)
    }

    /// Tries twice to advance the epoch, and then collects: `advance` and `collect`. It writes the
    /// value of each freed leaf to `out`, and stops if `out` is full: if as many
    /// values were written as `out` has room for, call again. It may be called at any time. Cost:
    /// at most `nodes` + 2 `workers` + 2 steps, a look for each freed node, and one for each value.
    pub fn reclaim(&mut self, out: &mut [u64]) -> Reclaimed
        ensures tree { self.new.tree ≡ self.old.tree }
        ensures says { LeavesReclaim self.old.tree.layout out.old out.new self.old.worker
            self.new.worker result.behind result.handed }
    {
        let first = self.advance();
        let second = self.advance();
        let handed = self.collect(out);
        Reclaimed {
            handed,
            behind: behind_of(&first, &second),
        }
    }

    /// Goes on after a look-up that failed with this error. If the remove of an earlier call is
    /// pending, it finishes that one, and then looks up. It makes what the cold calls keep in
    /// memory, apart from the code of a look-up that is answered at once.
    #[inline(always)]
    fn get_after(
        &mut self,
        key: Key,
        options: &Options,
        fault: CallFault,
    ) -> Result<Option<u64>, CallFault>
        requires begun { (w : WorkerView) × LeavesGet self.old.tree.layout options.now.tries key w
            self.old.worker (Err fault) }
        ensures tree { self.new.tree ≡ self.old.tree }
        ensures says { (w : WorkerView) → w.held ≡ None
            → LeavesGet self.old.tree.layout options.now.tries key w self.old.worker (Err fault)
            → ManagesGet self.old.tree options.now key w self.new.worker result }
    {
        if is_pending(fault) {
            return self.finish_and_get(key, options);
        }
        if options.rounds == 0 {
            return Err(fault);
        }
        self.get_again(key, &without_one(options))
    }

    /// Finishes the remove of an earlier call, and then looks up.
    #[cold]
    #[inline(never)]
    fn finish_and_get(&mut self, key: Key, options: &Options) -> Result<Option<u64>, CallFault>
        requires free { self.old.worker.held ≡ None }
        ensures tree { self.new.tree ≡ self.old.tree }
        ensures says { ManagesGet self.old.tree options.now key self.old.worker self.new.worker
            result }
    {
        let Ok(_done) = self.finish_with_retries(options) else {
            return Err(CallFault::Pending);
        };
        self.get_again(key, options)
    }

    /// Looks up the value until a look-up does not lose each of its tries: at most `rounds` and one
    /// times.
    #[cold]
    #[inline(never)]
    fn get_again(&mut self, key: Key, options: &Options) -> Result<Option<u64>, CallFault>
        requires free { self.old.worker.held ≡ None }
        requires none { self.old.worker.pending ≡ None }
        ensures tree { self.new.tree ≡ self.old.tree }
        ensures says { GetsIn self.old.tree options.now key (options.now.rounds + 1)
            self.old.worker self.new.worker result }
    {
        for _round in 0..options.rounds {
            let told = self.get_apart(key, options.tries);
            if !is_busy(&told) {
                return told;
            }
        }
        self.get_apart(key, options.tries)
    }

    /// Makes one look-up of the value, apart from the code of the first one.
    #[cold]
    #[inline(never)]
    fn get_apart(&mut self, key: Key, tries: u32) -> Result<Option<u64>, CallFault>
        ensures tree { self.new.tree ≡ self.old.tree }
        ensures says { Asked (LeavesGet self.old.tree.layout tries key) self.old.worker
            self.new.worker result }
    {
        self.try_get(key, tries)
    }
}

impl<V: Contents> Member<V> {
    /// Does `remove` of a map.
    #[inline(always)]
    pub(crate) fn remove_managed(
        &mut self,
        key: Key,
        taken: &mut u64,
        options: &Options,
    ) -> Result<bool, CallFault>
        requires values { HasValues self.old.tree }
        ensures tree { self.new.tree ≡ self.old.tree }
        ensures says { SaysChange Delete self.old.tree options.now key self.old.worker
            self.new.worker result }
        ensures takes { IfTaken result (TookMeanwhile self.old.worker.pass self.new.worker.pass key
            taken.new) }
    {
        if self.pinned().is_some() {
            return Err(CallFault::Pinned);
        }
        let Ok(_done) = self.finish_with_retries(options) else {
            return Err(CallFault::Pending);
        };
        self.know_run();
        let told = self.ask_value_with_retries(Op::Delete, key, 0, taken, options);
        if !is_unfinished(&told) {
            return told;
        }
        self.finish_with_retries(options)
    }
}
