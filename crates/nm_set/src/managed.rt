//! Managed calls: a call that lost its tries is retried, a remove that has begun is finished, and
//! retired nodes are collected.
ghost use Rattle.std.specs.Prelude.{◌≡◌, ◌≢◌, ◌≤◌, ◌<◌, ◌+◌, ◌-◌, ◌*◌, ◌^◌, min, true, false, None, IfOk, IfErr, Err};
ghost use Rattle.nm_model.specs.declared.event.Op.TheVariants.{Has, Insert, Delete};
ghost use Rattle.nm_calls.specs.declared.fault.CallFault.TheVariants as call;
ghost use Rattle.nm_tree.specs.Answers.{FreesNone};
ghost use Rattle.nm_tree.specs.Calls.{LeavesCollect, LeavesHas, LeavesInsert, LeavesDelete};
ghost use Rattle.nm_steps.specs.Values.{HasValues};
ghost use Rattle.nm_tree.specs.Workers.{IsIdle, WorkerView, waiting_in};
ghost use Rattle.nm_set.specs.declared.fault.Fullness.{Fullness};
ghost use Rattle.nm_set.specs.Managed.{Answers, Manages, SaysManaged, WasFull, of_insert, round_bound};
ghost use Rattle.nm_set.specs.MapRounds.{MovesValue};
ghost use Rattle.nm_set.specs.Rounds.{AnswersIn, Finishes, Inserts, IsKnown, IsReady, IsRelieved, ManagesInsert, Removes, found_behind, plain, with_fullness};

use crate::contents::{Contents, Keys};
use crate::fault::{Fullness, InsertFault};
use crate::member::Member;
use nm_edge::Key;
use nm_model::Op;
use nm_tree::{Advance, CallFault, Collected};

/// What a managed call may spend, and when it collects. Cost: at most 3 `rounds` + 5 rounds, each
/// of at most `tries` * (4 `reach` + 512) + 7 `nodes` + 2 `workers` + 12 steps. A walk's reach is
/// 66 nodes in a radix tree, and the number of nodes otherwise.
#[repr(C)]
#[derive(Clone, Copy, Debug, PartialEq, Eq)]
pub struct Options {
    /// The tries of each call of the tree. With fewer than 2 no remove returns true at once.
    pub tries: u32,
    /// How often a call that lost each of its tries is retried, and how often a remove that has
    /// begun is continued.
    pub rounds: u32,
    /// The number of waiting nodes from which an insert or a remove first advances the epoch and
    /// collects. While another worker stays pinned, each such call tries it again.
    pub collect_after: u32,
}

/// 64 tries, 64 rounds, and a collection from 64 nodes on.
impl Default for Options {
    fn default() -> Self {
        Options {
            tries: 64,
            rounds: 64,
            collect_after: 64,
        }
    }
}

/// Returns whether a call lost each of its tries.
pub(crate) fn is_busy<T>(told: &Result<T, CallFault>) -> bool
    ensures yes { result ≡ true → told.now ≡ Err call.Busy }
    ensures no { result ≡ false → told.now ≢ Err call.Busy }
{
    matches!(told, Err(CallFault::Busy))
}

/// Returns whether the remove of an earlier call is pending, so that nothing was done.
pub(crate) fn is_pending(fault: CallFault) -> bool
    ensures yes { result ≡ true → fault ≡ call.Pending }
    ensures no { result ≡ false → fault ≢ call.Pending }
{
    matches!(fault, CallFault::Pending)
}

/// Returns whether an insert found no free slot.
pub(crate) fn is_full(told: &Result<bool, CallFault>) -> bool
    ensures yes { result ≡ true → told.now ≡ Err call.Full }
    ensures no { result ≡ false → told.now ≢ Err call.Full }
{
    matches!(told, Err(CallFault::Full))
}

/// Returns whether a remove has flagged its leaf and is not finished.
pub(crate) fn is_unfinished<T>(told: &Result<T, CallFault>) -> bool
    ensures yes { result ≡ true → told.now ≡ Err call.Unfinished }
    ensures no { result ≡ false → told.now ≢ Err call.Unfinished }
{
    matches!(told, Err(CallFault::Unfinished))
}

/// Returns the worker that was found to hold the epoch back: by the second of two advances, or else
/// by the first.
pub(crate) fn behind_of(first: &Advance, second: &Advance) -> Option<u32>
    ensures { result ≡ found_behind first.now second.now }
{
    match (second, first) {
        (Advance::Held { worker, .. }, _) => Some(*worker),
        (_, Advance::Held { worker, .. }) => Some(*worker),
        _ => None,
    }
}

/// Converts the result of an insert that is not full.
fn plain(told: Result<bool, CallFault>) -> Result<bool, InsertFault>
    ensures { result ≡ plain told }
{
    match told {
        Ok(answer) => Ok(answer),
        Err(fault) => Err(InsertFault::Other(fault)),
    }
}

/// Converts the result of an insert, with what it found if no slot is free.
fn with_fullness(
    behind: Option<u32>,
    waiting: u64,
    told: Result<bool, CallFault>,
) -> Result<bool, InsertFault>
    ensures { result ≡ with_fullness behind waiting told }
{
    match told {
        Ok(answer) => Ok(answer),
        Err(CallFault::Full) => Err(InsertFault::Full(Fullness { waiting, behind })),
        Err(fault) => Err(InsertFault::Other(fault)),
    }
}

/// Returns how many tries `rounds` and one rounds have, or `u32::MAX` if there are more.
#[inline(always)]
fn tries_of_rounds(options: &Options) -> u32
    ensures { result ≡ min ((options.now.rounds + 1) * options.now.tries) (2 ^ 32 - 1) }
{
    let tries = (u64::from(options.rounds) + 1) * u64::from(options.tries);
    tries.min(u64::from(u32::MAX)) as u32
}

/// Returns the options with one round less.
pub(crate) fn without_one(options: &Options) -> Options
    requires { 1 ≤ options.now.rounds }
    ensures { result ≡ record options.now { rounds = options.now.rounds - 1 } }
{
    Options {
        rounds: options.rounds - 1,
        ..*options
    }
}

impl Member<Keys> {
    /// Inserts `key`; returns true if it was absent.
    ///
    /// Like `contains`, it finishes the remove of an earlier call first, and retries an insert that
    /// lost each of its tries. If `collect_after` nodes or more wait in the queues that the worker
    /// holds, it first tries twice to advance the epoch, and collects. It does the same if no slot
    /// was free, and then tries the insert once more. Nothing is pending after an answer, `Busy`,
    /// `Full` and `NoMemory`.
    ///
    /// Errors: `Pinned`, `Pending`, `Busy`: as of `contains`. `Full`: no slot was free for a new
    /// node, before a collection and after it. Proved (`full`): after the collection the call tried
    /// each slot, and got none. It names the worker that was found to hold the epoch back, or says
    /// that none was found; then the epoch was advanced twice during the call, or it is the last
    /// one. It also says how many removed nodes wait when the call ends. (The tree's own `Full` is
    /// not returned.) `NoMemory`: the memory for a try was refused; of the insert nothing remains
    /// but help given to others. Proved: the worker's own queue then has less room than a try
    /// needs. Proved (`alone`, `pending`): no other error, as for `contains`.
    #[inline(always)]
    pub fn insert(&mut self, key: Key, options: &Options) -> Result<bool, InsertFault>
        ensures tree { self.new.tree ≡ self.old.tree }
        ensures says { SaysManaged Insert self.old.tree options.now key self.old.worker
            self.new.worker (of_insert result) }
        ensures full { (f : Fullness) → result ≡ Err (InsertFault.Full f)
            → WasFull self.old.worker self.new.worker f }
    {
        if self.pinned().is_some() {
            return Err(InsertFault::Other(CallFault::Pinned));
        }
        if self.has_many_waiting(options) {
            return self.insert_untidy(key, options);
        }
        self.know_run();
        match self
            .home
            .tree()
            .insert(&mut self.sealed.worker, key, options.tries)
        {
            Ok(answer) => Ok(answer),
            Err(fault) => self.insert_after(key, options, fault),
        }
    }

    /// Removes `key`; returns true if it was present, after the leaf with the key was cut off.
    ///
    /// Like `contains`, it finishes the remove of an earlier call first, and retries a remove that
    /// lost each of its tries. One that has flagged its leaf goes on by a call of `finish` with the
    /// tries of `rounds` and one rounds. It collects first when `insert` does. Nothing is pending
    /// after an answer, `Busy` and `NoMemory`.
    ///
    /// Errors: `Pinned`, `Pending`, `Busy`: as of `contains`. `NoMemory`: the memory for a try was
    /// refused before the leaf was flagged. `Unfinished`: the leaf is flagged and not known to be
    /// cut off, for the same reasons as after `Pending`. The key will be removed, and no other
    /// remove of it returns true. It is pending, and the next managed call finishes it first.
    /// Proved (`alone`, `pending`): a call with at least one try returns an answer or `NoMemory` if
    /// no other worker has a remove pending before it or makes a transition during it. The
    /// exception is that the room of a try is refused later.
    #[inline(always)]
    pub fn remove(&mut self, key: Key, options: &Options) -> Result<bool, CallFault>
        ensures tree { self.new.tree ≡ self.old.tree }
        ensures says { SaysManaged Delete self.old.tree options.now key self.old.worker
            self.new.worker result }
    {
        self.remove_freeing(key, options)
    }
}

impl<V: Contents> Member<V> {
    /// Returns whether the set has the key.
    ///
    /// It retries a look-up that lost each of its tries, at most `rounds` times. If the remove of
    /// an earlier call is pending, it finishes that one first, by a call of `finish` with the tries
    /// of `rounds` and one rounds. So nothing is pending after an answer, and after `Busy`. Proved
    /// (`frees`): it frees no node.
    ///
    /// Errors: `Pinned`: the caller has pinned the worker; nothing has changed. `Pending`: the
    /// earlier remove is not finished, and this call has done nothing else. Proved (`pending`): the
    /// worker's own queue has less room than a try needs, or other workers have changed edges
    /// meanwhile, at least once for each of those tries. `Busy`: each look-up lost each of its tries, or the options
    /// allow none; other workers have advanced the epoch, or linked or cut off nodes, at least that
    /// often meanwhile. Proved (`alone`, `pending`): a call with at least one try is answered if no
    /// other worker has a remove pending before it or makes a transition during it. The exception
    /// is that the room for the earlier remove is refused.
    #[inline(always)]
    pub fn contains(&mut self, key: Key, options: &Options) -> Result<bool, CallFault>
        ensures tree { self.new.tree ≡ self.old.tree }
        ensures says { SaysManaged Has self.old.tree options.now key self.old.worker
            self.new.worker result }
        ensures frees { FreesNone self.old.worker self.new.worker }
    {
        if self.pinned().is_some() {
            return Err(CallFault::Pinned);
        }
        match self
            .home
            .tree()
            .has(&mut self.sealed.worker, key, options.tries)
        {
            Ok(answer) => Ok(answer),
            Err(fault) => self.contains_after(key, options, fault),
        }
    }

    /// Does `remove` of a set.
    #[inline(always)]
    pub(crate) fn remove_freeing(&mut self, key: Key, options: &Options) -> Result<bool, CallFault>
        ensures tree { self.new.tree ≡ self.old.tree }
        ensures says { SaysManaged Delete self.old.tree options.now key self.old.worker
            self.new.worker result }
    {
        if self.pinned().is_some() {
            return Err(CallFault::Pinned);
        }
        if self.has_many_waiting(options) {
            return self.remove_untidy(key, options);
        }
        self.know_run();
        match self
            .home
            .tree()
            .delete(&mut self.sealed.worker, key, options.tries)
        {
            Ok(answer) => Ok(answer),
            Err(fault) => self.remove_after(key, options, fault),
        }
    }

    /// Returns whether so many nodes wait that an insert or a remove first collects.
    #[inline(always)]
    fn has_many_waiting(&self, options: &Options) -> bool
        ensures yes { result ≡ true → options.now.collect_after ≤ waiting_in self.now.worker.queues }
        ensures no { result ≡ false → waiting_in self.now.worker.queues < options.now.collect_after }
    {
        self.queue_len() >= u64::from(options.collect_after)
    }

    /// Goes on after a look-up that failed with this error. If the remove of an earlier call is
    /// pending, it finishes that one, and then looks up.
    #[cold]
    #[inline(never)]
    fn contains_after(
        &mut self,
        key: Key,
        options: &Options,
        fault: CallFault,
    ) -> Result<bool, CallFault>
        requires begun { (w : WorkerView) × LeavesHas self.old.tree.layout options.now.tries key w
            self.old.worker (Err fault) }
        ensures tree { self.new.tree ≡ self.old.tree }
        ensures says { (w : WorkerView) → w.held ≡ None
            → LeavesHas self.old.tree.layout options.now.tries key w self.old.worker (Err fault)
            → Manages self.old.tree options.now Has key w self.new.worker result }
        ensures frees { FreesNone self.old.worker self.new.worker }
    {
        if !is_pending(fault) {
            return self.retry(Op::Has, key, options, fault);
        }
        let Ok(_done) = self.finish_with_retries(options) else {
            return Err(CallFault::Pending);
        };
        self.ask_with_retries(Op::Has, key, options)
    }

    /// Goes on after an insert that failed with this error.
    #[cold]
    #[inline(never)]
    fn insert_after(
        &mut self,
        key: Key,
        options: &Options,
        fault: CallFault,
    ) -> Result<bool, InsertFault>
        requires begun { (w : WorkerView) × LeavesInsert self.old.tree.layout options.now.tries key
            w self.old.worker (Err fault) }
        ensures tree { self.new.tree ≡ self.old.tree }
        ensures says { (w : WorkerView) → w.held ≡ None → IsKnown w
            → waiting_in w.queues < options.now.collect_after
            → LeavesInsert self.old.tree.layout options.now.tries key w self.old.worker (Err fault)
            → ManagesInsert self.old.tree options.now key w self.new.worker result }
    {
        if is_pending(fault) {
            self.insert_untidy(key, options)
        } else {
            self.retry_insert(key, options, fault)
        }
    }

    /// Goes on after a remove that failed with this error.
    #[cold]
    #[inline(never)]
    fn remove_after(
        &mut self,
        key: Key,
        options: &Options,
        fault: CallFault,
    ) -> Result<bool, CallFault>
        requires begun { (w : WorkerView) × LeavesDelete self.old.tree.layout options.now.tries key
            w self.old.worker (Err fault) }
        ensures tree { self.new.tree ≡ self.old.tree }
        ensures says { (w : WorkerView) → w.held ≡ None → IsIdle w
            → waiting_in w.queues < options.now.collect_after
            → LeavesDelete self.old.tree.layout options.now.tries key w self.old.worker (Err fault)
            → Manages self.old.tree options.now Delete key w self.new.worker result }
    {
        if is_pending(fault) {
            self.remove_untidy(key, options)
        } else {
            self.retry_remove(key, options, fault)
        }
    }

    /// Does `insert` if something is to be done first, apart from the code of the many calls that
    /// have nothing to do first.
    #[cold]
    #[inline(never)]
    fn insert_untidy(&mut self, key: Key, options: &Options) -> Result<bool, InsertFault>
        requires free { self.old.worker.held ≡ None }
        ensures tree { self.new.tree ≡ self.old.tree }
        ensures says { ManagesInsert self.old.tree options.now key self.old.worker self.new.worker
            result }
    {
        self.know_run();
        if let Err(fault) = self.make_tidy(options) {
            return Err(InsertFault::Other(fault));
        }
        self.know_run();
        let mut found = 0;
        match self.ask(Op::Insert, key, 0, &mut found, options.tries) {
            Ok(answer) => Ok(answer),
            Err(fault) => self.retry_insert(key, options, fault),
        }
    }

    /// Does `remove` if something is to be done first, apart from the code of the many calls that
    /// have nothing to do first.
    #[cold]
    #[inline(never)]
    fn remove_untidy(&mut self, key: Key, options: &Options) -> Result<bool, CallFault>
        requires free { self.old.worker.held ≡ None }
        ensures tree { self.new.tree ≡ self.old.tree }
        ensures says { Manages self.old.tree options.now Delete key self.old.worker
            self.new.worker result }
    {
        self.make_tidy(options)?;
        self.know_run();
        let mut found = 0;
        match self.ask(Op::Delete, key, 0, &mut found, options.tries) {
            Ok(answer) => Ok(answer),
            Err(fault) => self.retry_remove(key, options, fault),
        }
    }

    /// Finishes the remove of an earlier call if one is pending, and collects if many nodes wait.
    ///
    /// Errors: `Pending`: that remove is not finished, and nothing else is done.
    fn make_tidy(&mut self, options: &Options) -> Result<(), CallFault>
        requires free { self.old.worker.held ≡ None }
        ensures tree { self.new.tree ≡ self.old.tree }
        ensures ready { IfOk result (λ u. IsReady self.old.tree options.now self.old.worker
            self.new.worker) }
        ensures fault { IfErr result (λ f. f ≡ call.Pending) }
        ensures pending { IfErr result (λ f. Finishes self.old.tree options.now self.old.worker
            self.new.worker (Err call.Unfinished)) }
    {
        let Ok(_done) = self.finish_with_retries(options) else {
            return Err(CallFault::Pending);
        };
        if self.has_many_waiting(options) {
            self.relieve();
        }
        Ok(())
    }

    /// Retries an insert after a first one that failed with this error. If no slot was free, it
    /// collects and then inserts once more, with retries.
    #[cold]
    #[inline(never)]
    fn retry_insert(
        &mut self,
        key: Key,
        options: &Options,
        fault: CallFault,
    ) -> Result<bool, InsertFault>
        requires begun { (w : WorkerView) × Answers Insert key
            (round_bound options.now.tries self.old.tree.layout) options.now.tries w
            self.old.worker (Err fault) }
        ensures tree { self.new.tree ≡ self.old.tree }
        ensures says { (w : WorkerView) → IsKnown w → Answers Insert key
            (round_bound options.now.tries self.old.tree.layout) options.now.tries w
            self.old.worker (Err fault)
            → Inserts self.old.tree options.now key w self.new.worker result }
    {
        let told = self.retry(Op::Insert, key, options, fault);
        if !is_full(&told) {
            return plain(told);
        }
        self.know_run();
        let behind = self.relieve();
        let told = self.ask_with_retries(Op::Insert, key, options);
        with_fullness(behind, self.queue_len(), told)
    }

    /// Retries a remove after a first one that failed with this error, and finishes it if its leaf
    /// is flagged.
    #[cold]
    #[inline(never)]
    fn retry_remove(
        &mut self,
        key: Key,
        options: &Options,
        fault: CallFault,
    ) -> Result<bool, CallFault>
        requires begun { (w : WorkerView) × Answers Delete key
            (round_bound options.now.tries self.old.tree.layout) options.now.tries w
            self.old.worker (Err fault) }
        ensures tree { self.new.tree ≡ self.old.tree }
        ensures says { (w : WorkerView) → IsIdle w → w.pending ≡ None → Answers Delete key
            (round_bound options.now.tries self.old.tree.layout) options.now.tries w
            self.old.worker (Err fault)
            → Removes self.old.tree options.now key w self.new.worker result }
    {
        let told = self.retry(Op::Delete, key, options, fault);
        if !is_unfinished(&told) {
            return told;
        }
        self.finish_with_retries(options)
    }

    /// Tries twice to advance the epoch, and collects. Returns the worker that was found to hold
    /// the epoch back.
    #[cold]
    #[inline(never)]
    fn relieve(&mut self) -> Option<u32>
        requires free { self.old.worker.held ≡ None }
        requires none { self.old.worker.pending ≡ None }
        ensures tree { self.new.tree ≡ self.old.tree }
        ensures did { IsRelieved self.old.tree.layout self.old.worker self.new.worker result }
    {
        self.know_run();
        let first = self.advance();
        self.know_run();
        let second = self.advance();
        self.know_run();
        self.free();
        self.know_run();
        behind_of(&first, &second)
    }

    /// Frees what has waited long enough, in a set: `Tree::collect` of `nm_tree`.
    pub(crate) fn free(&mut self) -> Collected
        ensures tree { self.new.tree ≡ self.old.tree }
        ensures says { LeavesCollect self.old.tree.layout.nodes self.old.worker self.new.worker result }
    {
        self.home.tree().collect(&mut self.sealed.worker)
    }

    /// Retries a call after a first one that failed with this error. It makes what
    /// `ask_with_retries` keeps in memory, apart from the code of a call that answers.
    #[inline(always)]
    fn retry(
        &mut self,
        op: Op,
        key: Key,
        options: &Options,
        fault: CallFault,
    ) -> Result<bool, CallFault>
        requires begun { (w : WorkerView) × Answers op key
            (round_bound options.now.tries self.old.tree.layout) options.now.tries w
            self.old.worker (Err fault) }
        ensures tree { self.new.tree ≡ self.old.tree }
        ensures says { (w : WorkerView) → Answers op key
            (round_bound options.now.tries self.old.tree.layout) options.now.tries w
            self.old.worker (Err fault)
            → AnswersIn self.old.tree options.now op key (options.now.rounds + 1) w
            self.new.worker result }
        ensures frees { FreesNone self.old.worker self.new.worker }
    {
        let told = Err(fault);
        if !is_busy(&told) || options.rounds == 0 {
            return told;
        }
        self.ask_with_retries(op, key, &without_one(options))
    }

    /// Makes the call of that operation until one does not lose each of its tries: at most `rounds`
    /// and one times.
    #[cold]
    #[inline(never)]
    fn ask_with_retries(&mut self, op: Op, key: Key, options: &Options) -> Result<bool, CallFault>
        requires free { self.old.worker.held ≡ None }
        requires none { self.old.worker.pending ≡ None }
        ensures tree { self.new.tree ≡ self.old.tree }
        ensures says { AnswersIn self.old.tree options.now op key (options.now.rounds + 1)
            self.old.worker self.new.worker result }
        ensures frees { FreesNone self.old.worker self.new.worker }
    {
        let mut found = 0;
        self.ask_value_with_retries(op, key, 0, &mut found, options)
    }

    /// Makes the call of that operation until one does not lose each of its tries: at most `rounds`
    /// and one times. In a map an insert gives the key this value, or writes the value that was
    /// there to `found`, and a remove writes the value of its key to it.
    #[inline(always)]
    pub(crate) fn ask_value_with_retries(
        &mut self,
        op: Op,
        key: Key,
        value: u64,
        found: &mut u64,
        options: &Options,
    ) -> Result<bool, CallFault>
        requires free { self.old.worker.held ≡ None }
        requires none { self.old.worker.pending ≡ None }
        ensures tree { self.new.tree ≡ self.old.tree }
        ensures says { AnswersIn self.old.tree options.now op key (options.now.rounds + 1)
            self.old.worker self.new.worker result }
        ensures moves { HasValues self.old.tree → MovesValue op key value found.new
            self.old.worker.pass self.new.worker.pass result }
        ensures frees { FreesNone self.old.worker self.new.worker }
    {
        for _round in 0..options.rounds {
            let told = self.ask(op, key, value, found, options.tries);
            if !is_busy(&told) {
                return told;
            }
        }
        self.ask(op, key, value, found, options.tries)
    }

    /// Makes the call of that operation.
    #[cold]
    #[inline(never)]
    fn ask(
        &mut self,
        op: Op,
        key: Key,
        value: u64,
        found: &mut u64,
        tries: u32,
    ) -> Result<bool, CallFault>
        requires free { self.old.worker.held ≡ None }
        requires none { self.old.worker.pending ≡ None }
        ensures tree { self.new.tree ≡ self.old.tree }
        ensures says { Answers op key (round_bound tries self.old.tree.layout) tries
            self.old.worker self.new.worker result }
        ensures moves { HasValues self.old.tree → MovesValue op key value found.new
            self.old.worker.pass self.new.worker.pass result }
        ensures frees { FreesNone self.old.worker self.new.worker }
    {
        let tree = self.home.tree();
        match op {
            Op::Has => tree.has(&mut self.sealed.worker, key, tries),
            Op::Insert => {
                tree.insert_with_value(&mut self.sealed.worker, key, value, found, tries)
            }
            Op::Delete => tree.delete_with_value(&mut self.sealed.worker, key, found, tries),
        }
    }

    /// Finishes the remove that is pending, by one call with as many tries as all rounds have.
    /// Nearly always there is none.
    #[inline(always)]
    pub(crate) fn finish_with_retries(&mut self, options: &Options) -> Result<bool, CallFault>
        requires free { self.old.worker.held ≡ None }
        ensures tree { self.new.tree ≡ self.old.tree }
        ensures says { Finishes self.old.tree options.now self.old.worker self.new.worker result }
    {
        self.finish(tries_of_rounds(options))
    }
}
