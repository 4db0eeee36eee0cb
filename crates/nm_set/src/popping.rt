//! Managed calls that remove the least or the greatest key, of all keys or of those up to a bound.
//! `map_popping` has those of maps.
ghost use Rattle.std.specs.Prelude.{◌≡◌, ◌≢◌, ◌<◌, ◌≤◌, ◌+◌, ◌*◌, true, false, None, Err};
ghost use Rattle.nm_edge.specs.Keys.{IsKey};
ghost use Rattle.nm_calls.specs.declared.fault.CallFault.TheVariants as fault;
ghost use Rattle.nm_steps.specs.Values.{HasValues};
ghost use Rattle.nm_tree.specs.Answers.{FreesNone, IfTaken};
ghost use Rattle.nm_tree.specs.Popping.{Finds, among, comes_before};
ghost use Rattle.nm_set.specs.MapRounds.{SaysRemoved};
ghost use Rattle.nm_set.specs.Maps.{PopsValue, TookMeanwhile};
ghost use Rattle.nm_set.specs.Popping.{Pops, SaysManagedPop, SaysManagedPopOf, pop_round_bound};

use crate::contents::{Contents, Keys};
use crate::managed::Options;
use crate::member::Member;
use nm_edge::{Key, MOST_KEY};
use nm_tree::{CallFault, End};

/// Returns whether a round came to nothing.
fn is_busy(told: &Result<Option<Key>, CallFault>) -> bool
    ensures yes { result ≡ true → told.now ≡ Err fault.Busy }
    ensures no { result ≡ false → told.now ≢ Err fault.Busy }
{
    matches!(told, Err(CallFault::Busy))
}

impl Member<Keys> {
    /// Removes the least key of the set, and returns it; `None` if the set is empty. It finds the
    /// least key and removes it, and looks for the least one again if another worker removed that
    /// key in between. After `Some(key)`: this call removed the key, at a moment of the call; and
    /// for each lesser key there was a moment of this call at which the set did not have it. After
    /// `None`: the same for each key. Two keys may have different moments. So no key is passed over
    /// that was present throughout, and one that was inserted meanwhile may be. Each moment is
    /// later than all that the worker had seen before.
    ///
    /// Like `remove`, it finishes the remove of an earlier call first, and collects if
    /// `collect_after` nodes wait. It retries a round that came to nothing, at most `rounds` times.
    /// Nothing is pending after an answer, `Busy` and `NoMemory`.
    ///
    /// Errors: `Pinned`, `Pending`, `NoMemory`: as of `remove`. `Busy`: each round came to nothing,
    /// because others removed the key that was found, or because a call lost each of its tries.
    /// Proved (`busy`): a call with at least two tries is `Busy` only if turns have interfered with
    /// it, or others have advanced the epoch, at least once for each round. `Unfinished`: the least
    /// key, as above, will be removed by this call, and is pending; the next managed call finishes
    /// it first. Proved (`alone`, `pending`): a call with at least two tries returns an answer or
    /// `NoMemory` if no other worker has a remove pending before it or makes a transition during
    /// it. The exception is that the room of a try is refused later. (The name is that of Rust's
    /// `BTreeSet`.)
    pub fn pop_first(&mut self, options: &Options) -> Result<Option<Key>, CallFault>
        ensures tree { self.new.tree ≡ self.old.tree }
        ensures says { SaysManagedPop ◌<◌ self.old.tree options.now self.old.worker self.new.worker
            result }
    {
        let mut taken = 0;
        self.pop(End::First, false, &mut taken, options)
    }

    /// Removes the greatest key of the set, like `pop_first`: for each greater key there was a
    /// moment of this call at which the set did not have it.
    pub fn pop_last(&mut self, options: &Options) -> Result<Option<Key>, CallFault>
        ensures tree { self.new.tree ≡ self.old.tree }
        ensures says { SaysManagedPop (λ j key. key < j) self.old.tree options.now self.old.worker
            self.new.worker result }
    {
        let mut taken = 0;
        self.pop(End::Last, false, &mut taken, options)
    }

    /// Removes the least key of the set, if it is below `below`. It is like `pop_first`, but `None`
    /// says of each key below the bound alone that the set did not have it, at a moment of this
    /// call. A key that is not below the bound stays.
    pub fn pop_first_below(
        &mut self,
        below: u64,
        options: &Options,
    ) -> Result<Option<Key>, CallFault>
        ensures tree { self.new.tree ≡ self.old.tree }
        ensures says { SaysManagedPopOf (λ j. IsKey j × (j < below)) ◌<◌ self.old.tree options.now
            self.old.worker self.new.worker result }
    {
        let mut taken = 0;
        self.pop(End::FirstBelow(below), false, &mut taken, options)
    }

    /// Removes the greatest key of the set, if it is not below `from`. It is like `pop_last`, but
    /// `None` says of each key from the bound on alone that the set did not have it, at a moment of
    /// this call. A key below the bound stays.
    pub fn pop_last_from(&mut self, from: u64, options: &Options) -> Result<Option<Key>, CallFault>
        ensures tree { self.new.tree ≡ self.old.tree }
        ensures says { SaysManagedPopOf (λ j. IsKey j × (from ≤ j)) (λ j key. key < j) self.old.tree
            options.now self.old.worker self.new.worker result }
    {
        let mut taken = 0;
        self.pop(End::LastFrom(from), false, &mut taken, options)
    }
}

impl<V: Contents> Member<V> {
    /// Removes the key at that end. In a map it writes the value of the key to `taken`.
    pub(crate) fn pop(
        &mut self,
        end: End,
        in_map: bool,
        taken: &mut u64,
        options: &Options,
    ) -> Result<Option<Key>, CallFault>
        requires values { in_map ≡ true → HasValues self.old.tree }
        ensures tree { self.new.tree ≡ self.old.tree }
        ensures says { SaysManagedPopOf (among end) (comes_before end) self.old.tree options.now
            self.old.worker self.new.worker result }
        ensures takes { in_map ≡ true → PopsValue self.old.worker.pass self.new.worker.pass taken.new
            result }
        ensures frees { in_map ≡ true → FreesNone self.old.worker self.new.worker }
    {
        if self.pinned().is_some() {
            return Err(CallFault::Pinned);
        }
        let Ok(_done) = self.finish_with_retries(options) else {
            return Err(CallFault::Pending);
        };
        self.pop_with_retries(end, in_map, taken, options)
    }

    /// Makes rounds until one does not come to nothing: at most `rounds` and one.
    fn pop_with_retries(
        &mut self,
        end: End,
        in_map: bool,
        taken: &mut u64,
        options: &Options,
    ) -> Result<Option<Key>, CallFault>
        requires values { in_map ≡ true → HasValues self.old.tree }
        requires free { self.old.worker.held ≡ None }
        requires none { self.old.worker.pending ≡ None }
        ensures tree { self.new.tree ≡ self.old.tree }
        ensures says { Pops (among end) (comes_before end) options.now
            ((options.now.rounds + 1) * pop_round_bound options.now self.old.tree.layout)
            (options.now.rounds + 1) self.old.worker self.new.worker result }
        ensures takes { in_map ≡ true → PopsValue self.old.worker.pass self.new.worker.pass taken.new
            result }
        ensures frees { in_map ≡ true → FreesNone self.old.worker self.new.worker }
    {
        for _round in 0..options.rounds {
            let told = self.pop_once(end, in_map, taken, options);
            if !is_busy(&told) {
                return told;
            }
        }
        self.pop_once(end, in_map, taken, options)
    }

    /// Finds the key at that end, and removes it if it may.
    fn pop_once(
        &mut self,
        end: End,
        in_map: bool,
        taken: &mut u64,
        options: &Options,
    ) -> Result<Option<Key>, CallFault>
        requires values { in_map ≡ true → HasValues self.old.tree }
        requires free { self.old.worker.held ≡ None }
        requires none { self.old.worker.pending ≡ None }
        ensures tree { self.new.tree ≡ self.old.tree }
        ensures says { Pops (among end) (comes_before end) options.now
            (pop_round_bound options.now self.old.tree.layout) 1 self.old.worker self.new.worker
            result }
        ensures takes { in_map ≡ true → PopsValue self.old.worker.pass self.new.worker.pass taken.new
            result }
        ensures frees { in_map ≡ true → FreesNone self.old.worker self.new.worker }
    {
        self.know_run();
        let Some(key) = self.key_at(end, options.tries)? else {
            return Ok(None);
        };
        if !end.has(key) {
            return Ok(None);
        }
        if self.remove_popped(key, in_map, taken, options)? {
            Ok(Some(key))
        } else {
            self.know_run();
            Err(CallFault::Busy)
        }
    }

    /// Removes the key: in a map it writes its value to `taken`, and otherwise it may collect
    /// first.
    #[inline(always)]
    fn remove_popped(
        &mut self,
        key: Key,
        in_map: bool,
        taken: &mut u64,
        options: &Options,
    ) -> Result<bool, CallFault>
        requires values { in_map ≡ true → HasValues self.old.tree }
        ensures tree { self.new.tree ≡ self.old.tree }
        ensures says { SaysRemoved self.old.tree options.now key self.old.worker self.new.worker
            result }
        ensures takes { in_map ≡ true → IfTaken result (TookMeanwhile self.old.worker.pass
            self.new.worker.pass key taken.new) }
        ensures frees { in_map ≡ true → FreesNone self.old.worker self.new.worker }
    {
        if in_map {
            self.remove_managed(key, taken, options)
        } else {
            self.remove_freeing(key, options)
        }
    }

    /// Returns the key at that end.
    fn key_at(&mut self, end: End, tries: u32) -> Result<Option<Key>, CallFault>
        requires free { self.old.worker.held ≡ None }
        ensures tree { self.new.tree ≡ self.old.tree }
        ensures says { Finds end self.old.tree.layout tries self.old.worker self.new.worker result }
        ensures frees { FreesNone self.old.worker self.new.worker }
    {
        let tree = self.home.tree();
        match end {
            End::First | End::FirstBelow(_) => {
                tree.next(&mut self.sealed.worker, Key::new(0).unwrap(), tries)
            }
            End::Last | End::LastFrom(_) => {
                tree.prev(&mut self.sealed.worker, Key::new(MOST_KEY).unwrap(), tries)
            }
        }
    }
}
