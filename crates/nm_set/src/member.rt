//! Members: a worker together with the tree on which it works.
ghost use Rattle.std.specs.Prelude.{◌≡◌, ◌<◌, ◌++◌, ◌∷◌, [], length, vec_capacity, option_map, IfOk, IfErr, IfSome};
ghost use Rattle.std.specs.Arc.{arc_value};
ghost use Rattle.nm_edge.specs.Layouts.{IsLayout};
ghost use Rattle.nm_steps.specs.Rules.{Extends, ExtendsStores};
ghost use Rattle.nm_steps.specs.Steps.{HasHeard, HasSeen, HasSeenAllOf, IsNoteOf, IsOfRun};
ghost use Rattle.nm_steps.specs.Values.{HasSeenStores, HasValues};
ghost use Rattle.nm_tree.specs.Resigning.{HasResigned};
ghost use Rattle.nm_tree.specs.Running.{HasSeenTurns};
ghost use Rattle.nm_tree.specs.Workers.{WorkerView, IsBetweenCalls, IsLedger, waiting_in, blocks_in, AreFewIn, IsIdle};
ghost use Rattle.nm_calls.specs.declared.deleting.Unfinished.{Unfinished as Delete};
ghost use Rattle.nm_tree.specs.Calls.{SaysHas, LeavesAdvance, LeavesBehind, LeavesCollect};
ghost use Rattle.nm_set.specs.Asked.{Asked, AskedToPin, AskedToUnpin, SaysTryInsert, SaysTryRemove, SaysGoOn};
ghost use Rattle.nm_set.specs.InTurns.{AskedMany};
ghost use Rattle.nm_set.specs.NextKeys.{AskedNext, AskedPrev};
ghost use Rattle.nm_set.specs.Posts.{IsReturned, IsSentBack, IsTallyOf, ReadsNote};
ghost use Rattle.nm_set.specs.Seats.{IsLetGo, IsOwn, IsResident, IsStaying, MayReturn, seats_in, told_absence};

use crate::contents::{Contents, Keys};
use crate::fault::{NotPinned, ObserveFault};
use crate::home::{Absence, Home};
use crate::lease::Lease;
use crate::posting::{Stamp, leave_letter, read_letter};
use crate::returning::{ReturnedWorker, SentBack};
use crate::seat::{SealedWorker, WayBack};
use nm_edge::Key;
use nm_steps::Note;
use nm_tree::{
    Advance, Behind, CallFault, Collected, Counts, PinFault, Query, ResignReason, Worker,
};
use std::alloc::Global;
use std::marker::{Model, PhantomData};
use std::sync::Arc;

/// One worker of a set. It may go to another thread between two calls, and the tree lives as long
/// as the member does. A drop returns its worker, like `close`. A member's part in its home gives
/// its calls the tree and no seat, so they act by its own worker alone.
pub struct Member<V: Contents = Keys> {
    pub(crate) home: Lease,
    pub(crate) sealed: SealedWorker,
    way_back: WayBack,
    of: PhantomData<V>,
}

impl<V: Contents> Model for Member<V> {
    ghost use Rattle.std.specs.Prelude.{◌≡◌};
    ghost use Rattle.nm_set.specs.Seats.{IsOwn, MayReturn, MemberView, seats_in};

    ghost Value = { MemberView };

    ghost view = { λ m. record { tree = m.home.tree; worker = m.sealed.worker; returns = m.way_back.turn } };

    ghost invariant = { λ m. IsOwn m.home.tree m.sealed.worker × (m.sealed.worker.fit ≡ m.home.fit)
        × MayReturn (seats_in m.home) m.sealed.worker m.way_back × V.fits m.home.tree };
}

/// A member did not take over a worker. The member is unchanged.
#[derive(Drop)]
pub struct ResignError<M, R> {
    pub reason: ResignReason,
    pub member: M,
    /// After `Pending` and `NoMemory`: the worker that was found on its seat, as it was returned to
    /// it, and, after `Pending`, with its key still pending. `None` after any other reason.
    pub leaver: Option<R>,
}

impl<V: Contents> Member<V> {
    pub(crate) fn of(home: Arc<Home, Global>, sealed: SealedWorker, way_back: WayBack) -> Member<V>
        requires contents { V.fits (arc_value home).tree }
        requires own { IsOwn (arc_value home).tree sealed.worker }
        requires fit { sealed.worker.fit ≡ (arc_value home).fit }
        requires back { MayReturn (seats_in (arc_value home)) sealed.worker way_back }
        ensures tree { result.tree ≡ (arc_value home).tree }
        ensures worker { result.worker ≡ sealed.worker }
        ensures returns { result.returns ≡ way_back.turn }
    {
        Member::back(Lease::of(home), sealed, way_back)
    }

    /// Builds the member again that was taken apart.
    pub(crate) fn back(home: Lease, sealed: SealedWorker, way_back: WayBack) -> Member<V>
        requires contents { V.fits home.tree }
        requires own { IsOwn home.tree sealed.worker }
        requires fit { sealed.worker.fit ≡ home.fit }
        requires back { MayReturn (seats_in home) sealed.worker way_back }
        ensures tree { result.tree ≡ home.tree }
        ensures worker { result.worker ≡ sealed.worker }
        ensures returns { result.returns ≡ way_back.turn }
    {
        Member {
            home,
            sealed,
            way_back,
            of: PhantomData,
        }
    }

    /// Returns the worker's number, which is below the number of workers.
    pub fn number(&self) -> u32
        ensures { result ≡ self.now.worker.pass.view.number }
    {
        self.sealed.worker.number()
    }

    /// Returns how often the worker had been returned to its seat before this member got it. If it
    /// never was, the worker has done nothing but what this member has done.
    pub fn returns(&self) -> u64
        ensures { result ≡ self.now.returns }
    {
        self.way_back.turn()
    }

    /// Proof only: establishes what `Worker::know_run` and `Worker::know_between_calls` of `nm_tree`
    /// establish of the member's worker, and that this worker is one of the set's. No run-time effect.
    pub fn know_run(&self)
        ensures own { IsOwn self.now.tree self.now.worker }
        ensures seen { HasSeen self.now.worker.pass.view }
        ensures turns { HasSeenTurns self.now.worker.pass.view }
        ensures idle { IsIdle self.now.worker }
        ensures between { IsBetweenCalls self.now.worker }
        ensures run { IsOfRun self.now.worker.pass.view.layout self.now.worker.pass.view.number
            self.now.worker.pass.view.log }
        ensures fits { IsLayout self.now.worker.pass.view.layout }
        ensures values { V.fits self.now.tree }
    {
        self.sealed.worker.know_run();
        self.sealed.worker.know_between_calls();
    }

    /// Returns whether the set has the key: `Tree::has` of `nm_tree`.
    ///
    /// Errors: `Pinned`: the caller has pinned the worker; and those of the tree.
    #[inline(always)]
    pub fn try_contains(&mut self, key: Key, tries: u32) -> Result<bool, CallFault>
        ensures tree { self.new.tree ≡ self.old.tree }
        ensures says { Asked (SaysHas self.old.tree.layout tries key) self.old.worker
            self.new.worker result }
    {
        if self.sealed.worker.held().is_some() {
            return Err(CallFault::Pinned);
        }
        self.home.tree().has(&mut self.sealed.worker, key, tries)
    }

    /// Looks up each of these keys, and writes the answers into their `found`: `Tree::has_many` of
    /// `nm_tree`.
    ///
    /// Errors: `Pinned`: the caller has pinned the worker; and those of the tree.
    pub fn contains_many(&mut self, queries: &mut [Query], tries: u32) -> Result<(), CallFault>
        ensures tree { self.new.tree ≡ self.old.tree }
        ensures says { AskedMany self.old.tree.layout tries queries.old queries.new
            self.old.worker self.new.worker result }
    {
        if self.sealed.worker.held().is_some() {
            return Err(CallFault::Pinned);
        }
        self.home
            .tree()
            .has_many(&mut self.sealed.worker, queries, tries)
    }

    /// Returns the least key of the set that is not below `key`, or `None` if there is none:
    /// `Tree::next` of `nm_tree`.
    ///
    /// Errors: `Pinned`: the caller has pinned the worker; and those of the tree.
    pub fn next(&mut self, key: Key, tries: u32) -> Result<Option<Key>, CallFault>
        ensures tree { self.new.tree ≡ self.old.tree }
        ensures says { AskedNext self.old.tree.layout tries key self.old.worker self.new.worker
            result }
    {
        if self.sealed.worker.held().is_some() {
            return Err(CallFault::Pinned);
        }
        self.home.tree().next(&mut self.sealed.worker, key, tries)
    }

    /// Returns the greatest key of the set that is not above `key`, or `None` if there is none:
    /// `Tree::prev` of `nm_tree`.
    ///
    /// Errors: `Pinned`: the caller has pinned the worker; and those of the tree.
    pub fn prev(&mut self, key: Key, tries: u32) -> Result<Option<Key>, CallFault>
        ensures tree { self.new.tree ≡ self.old.tree }
        ensures says { AskedPrev self.old.tree.layout tries key self.old.worker self.new.worker
            result }
    {
        if self.sealed.worker.held().is_some() {
            return Err(CallFault::Pinned);
        }
        self.home.tree().prev(&mut self.sealed.worker, key, tries)
    }

    /// Removes `key`; returns true if it was present: `Tree::delete` of `nm_tree`.
    ///
    /// Errors: `Pinned`: the caller has pinned the worker; and those of the tree. After
    /// `Unfinished` the key is pending, and `finish` goes on.
    #[inline(always)]
    pub fn try_remove(&mut self, key: Key, tries: u32) -> Result<bool, CallFault>
        ensures tree { self.new.tree ≡ self.old.tree }
        ensures says { SaysTryRemove self.old.tree.layout tries key self.old.worker self.new.worker
            result }
    {
        if self.sealed.worker.held().is_some() {
            return Err(CallFault::Pinned);
        }
        self.home.tree().delete(&mut self.sealed.worker, key, tries)
    }

    /// Goes on with the remove that is pending: `Tree::finish` of `nm_tree`, with its errors.
    /// Returns false, with no step, if none is pending.
    #[inline(always)]
    pub fn finish(&mut self, tries: u32) -> Result<bool, CallFault>
        ensures tree { self.new.tree ≡ self.old.tree }
        ensures says { SaysGoOn self.old.tree.layout tries self.old.worker self.new.worker result }
    {
        self.home.tree().finish(&mut self.sealed.worker, tries)
    }

    /// Pins the epoch for the caller, until `unpin`, and returns it: `Tree::pin` of `nm_tree`.
    ///
    /// Errors: `Pinned`: the caller has pinned the worker already; and those of the tree.
    pub fn pin(&mut self, tries: u32) -> Result<u64, PinFault>
        ensures tree { self.new.tree ≡ self.old.tree }
        ensures says { AskedToPin tries self.old.worker self.new.worker result }
    {
        if self.sealed.worker.held().is_some() {
            return Err(PinFault::Pinned);
        }
        self.home.tree().pin(&mut self.sealed.worker, tries)
    }

    /// Ends the caller's pin, in one step.
    ///
    /// Errors: `NotPinned`: the caller has not pinned the worker. Nothing has changed, and no step
    /// was made.
    pub fn unpin(&mut self) -> Result<(), NotPinned>
        ensures tree { self.new.tree ≡ self.old.tree }
        ensures says { AskedToUnpin self.old.worker self.new.worker result }
    {
        if self.sealed.worker.held().is_none() {
            return Err(NotPinned);
        }
        self.home.tree().unpin(&mut self.sealed.worker);
        Ok(())
    }

    /// Advances the epoch by one, if no worker holds it back: `Tree::advance` of `nm_tree`.
    pub fn advance(&mut self) -> Advance
        ensures tree { self.new.tree ≡ self.old.tree }
        ensures says { LeavesAdvance self.old.tree.layout.workers self.old.worker self.new.worker
            result }
    {
        self.home.tree().advance(&mut self.sealed.worker)
    }

    /// Returns which workers hold the epoch back, this one included: `Tree::behind` of `nm_tree`.
    pub fn behind(&mut self) -> Behind
        ensures tree { self.new.tree ≡ self.old.tree }
        ensures says { LeavesBehind self.old.tree.layout.workers self.old.worker self.new.worker
            result }
    {
        self.home.tree().behind(&mut self.sealed.worker)
    }

    /// Makes a note of all that the worker has seen, for another member of this set: `Tree::note`
    /// of `nm_tree`. Takes no step, no lock and no memory.
    pub fn note(&mut self) -> Note
        ensures same { self.new ≡ self.old }
        ensures note { IsNoteOf self.old.worker.pass result }
        ensures table { result.table ≡ self.old.tree.table }
    {
        self.home.tree().note(&mut self.sealed.worker)
    }

    /// Hears a note of another member of this set: `Tree::hear` of `nm_tree`. All that this worker
    /// is asked from then on happens after all that the other one had done when it made the note.
    /// Takes no step, no lock and no memory.
    ///
    /// The note must be of this set, which nobody can test. So this call has a condition, and is
    /// for callers that prove what they have heard.
    pub fn hear(&mut self, note: Note)
        requires table { note.table ≡ self.old.tree.table }
        ensures tree { self.new.tree ≡ self.old.tree }
        ensures same { HasHeard self.old.worker.pass self.new.worker.pass }
        ensures past { HasSeenAllOf self.new.worker.pass self.old.worker.pass }
        ensures heard { Extends self.new.worker.pass.view.past note.past }
        ensures stores { ExtendsStores self.new.worker.pass.view.stores
            self.old.worker.pass.view.stores }
        ensures heard_stores { ExtendsStores self.new.worker.pass.view.stores note.stores }
        ensures values { HasValues self.old.tree → HasSeenStores self.new.worker.pass.view }
        ensures rest { self.new.worker ≡ record self.old.worker { pass = self.new.worker.pass } }
        ensures between { IsBetweenCalls self.new.worker }
    {
        self.home.tree().hear(&mut self.sealed.worker, note);
    }

    /// Publishes a stamp of all that the worker has seen, in place of its earlier one, for any
    /// other member of this set to `observe`. Returns what the worker has done so far, or `None` if
    /// another member is observing the earlier stamp at this moment, which then remains. Takes no
    /// step, no lock and no memory.
    ///
    /// Proved: the numbers that are returned. Tested: that the stamp is there afterwards, because
    /// no clause says what a mailbox holds.
    pub fn publish(&mut self) -> Option<Stamp>
        ensures same { self.new ≡ self.old }
        ensures tally { IfSome result (IsTallyOf self.old.worker) }
    {
        let mailbox = self.home.mailbox_of(self.sealed.worker.number())?;
        leave_letter(self.home.tree(), mailbox, &mut self.sealed.worker)
    }

    /// Observes the stamp that the worker of a number has published, and leaves it there for
    /// others. All that this worker is asked from then on happens after all that the other one had
    /// seen when it published the stamp. Returns what the other one had done by then, or `None` if
    /// it has published none. Takes no step, no lock and no memory.
    ///
    /// An observer that is given as many keys as the other worker had inserted and removed has
    /// heard of all of them: `letters_are_in_order`.
    ///
    /// Errors: `Number`: the tree has no worker of that number. `Busy`: another member is
    /// publishing or observing that stamp at this moment. Nothing has changed.
    ///
    /// Proved: what is returned is true of the stamp that was observed. Tested: that it is the
    /// latest stamp, and that none was published if `None` is returned, because no clause says what
    /// a mailbox holds.
    pub fn observe(&mut self, number: u32) -> Result<Option<Stamp>, ObserveFault>
        ensures tree { self.new.tree ≡ self.old.tree }
        ensures heard { ReadsNote self.old.tree number self.old.worker self.new.worker result }
    {
        let Some(mailbox) = self.home.mailbox_of(number) else {
            return Err(ObserveFault::Number);
        };
        read_letter(self.home.tree(), mailbox, &mut self.sealed.worker)
    }

    /// Returns the key of a remove that has flagged its leaf and is not finished; `finish` goes on
    /// with it.
    pub fn pending(&self) -> Option<Key>
        ensures { result ≡ option_map (λ (n : Delete). n.key) self.now.worker.pending }
    {
        self.sealed.worker.pending()
    }

    /// Returns the epoch at which the caller has pinned the worker, from a `pin` until its `unpin`.
    pub fn pinned(&self) -> Option<u64>
        ensures { result ≡ self.now.worker.held }
    {
        self.sealed.worker.held()
    }

    /// Returns what this worker has won, and what became of the nodes that it cut off.
    pub fn stats(&self) -> Counts
        ensures { IsLedger self.now.worker.pass.view self.now.worker.pass.view.number result }
    {
        self.sealed.worker.ledger()
    }

    /// Returns the number of nodes that wait in the queues that the worker holds.
    pub fn queue_len(&self) -> u64
        ensures { result ≡ waiting_in self.now.worker.queues }
    {
        self.sealed.worker.queue_len()
    }

    /// Returns the number of blocks in the queues that the worker holds; a block has 32 places and
    /// 776 bytes. After any call the queues have at most the blocks that the waiting nodes and 318
    /// places a queue need.
    pub fn queue_blocks(&self) -> u64
        ensures blocks { result ≡ blocks_in self.now.worker.queues }
        ensures few { AreFewIn result self.now.worker.queues }
    {
        self.sealed.worker.queue_blocks()
    }

    /// Returns the worker, with all that it holds or has pending; `Set::member` can take it again,
    /// and `ReturnedWorker::again` takes it again as it was. A pin of the caller ends as by `unpin`.
    /// The worker takes no other step on its way, and has inserted and removed what it had before.
    pub fn close(self) -> ReturnedWorker<V>
        ensures tree { result.tree ≡ self.tree }
        ensures did { (z : WorkerView) × IsLetGo self.worker z × IsReturned z result }
        ensures tally { IsTallyOf self.worker result.done }
    {
        let mut member = self;
        member.know_run();
        member.let_go();
        member.know_run();
        let (home, sealed, way_back) = member.apart();
        let sat = home.receive(sealed, way_back);
        ReturnedWorker::of(home, sat)
    }

    /// Ends the caller's pin, if there is one.
    fn let_go(&mut self)
        ensures tree { self.new.tree ≡ self.old.tree }
        ensures did { IsLetGo self.old.worker self.new.worker }
    {
        if self.pinned().is_some() {
            self.home.tree().unpin(&mut self.sealed.worker);
        }
    }

    /// Takes the member apart, into its part in the home and its worker, unchanged, with its way
    /// back.
    pub(crate) fn apart(self) -> (Lease, SealedWorker, WayBack)
        ensures worker { result.1.worker ≡ self.worker }
        ensures tree { result.0.tree ≡ self.tree }
        ensures own { IsOwn self.tree self.worker }
        ensures fit { self.worker.fit ≡ result.0.fit }
        ensures back { MayReturn (seats_in result.0) self.worker result.2 }
        ensures contents { V.fits self.tree }
        ensures returns { result.2.turn ≡ self.returns }
    {
        let Self {
            home,
            sealed,
            way_back,
            of: _,
        } = self;
        (home, sealed, way_back)
    }

    /// Keeps the worker with these, unchanged; it does not come back to its seat. There is room for
    /// it.
    pub(crate) fn stay_with(self, workers: &mut Vec<Worker>)
        requires { length workers.old.items < vec_capacity workers.old }
        ensures items { workers.new.items ≡ workers.old.items ++ self.worker ∷ [] }
        ensures capacity { vec_capacity workers.new ≡ vec_capacity workers.old }
        ensures own { IsOwn self.tree self.worker }
    {
        let (home, sealed, way_back) = self.apart();
        let _home = home.retire(way_back);
        sealed.stay_with(workers);
    }

    /// Takes over a worker that is not attached: `Tree::resign` of `nm_tree`. That worker never
    /// comes back; this one holds all that it held.
    ///
    /// Errors: nothing has changed, the leaver is on its seat, and the member is given back
    /// unchanged. `Number`: the tree has no worker of that number. `Attached`: a member has it, or
    /// it has resigned, or the set has as many members as can be counted. `Pending`: it was returned
    /// with a pending key. `NoMemory`: the room for its queues was refused. After these two it was
    /// taken from its seat and is back there as it was; the error has its ticket.
    pub fn resign(self, leaver: u32) -> Result<Member<V>, ResignError<Member<V>, ReturnedWorker<V>>>
        ensures done { IfOk result
            (λ m. (m.tree ≡ self.tree) × (w : WorkerView) × IsResident self.tree self.worker.fit leaver w
            × HasResigned self.worker w m.worker) }
        ensures refused { IfErr result (λ e. e.member ≡ self) }
        ensures reason { IfErr result (λ e. IsStaying self leaver e.reason) }
        ensures leaver { IfErr result (λ e. IsSentBack self leaver e.reason e.leaver) }
    {
        let Member {
            home,
            sealed,
            way_back,
            of: _,
        } = self;
        let (home, found) = home.take(leaver);
        let taken = match found {
            Ok(taken) => taken,
            Err(absence) => {
                return Err(ResignError {
                    reason: reason_of(absence),
                    member: Member::back(home, sealed, way_back),
                    leaver: None,
                });
            }
        };
        match taken.resign_to(sealed) {
            Ok(heir) => Ok(Member::back(home, heir, way_back)),
            Err(sent_back) => {
                let SentBack {
                    reason,
                    heir,
                    leaver,
                } = sent_back;
                Err(ResignError {
                    reason,
                    member: Member::back(home, heir, way_back),
                    leaver: Some(leaver),
                })
            }
        }
    }
}

impl Member<Keys> {
    /// Inserts `key`; returns true if it was absent: `Tree::insert` of `nm_tree`.
    ///
    /// Errors: `Pinned`: the caller has pinned the worker; and those of the tree.
    #[inline(always)]
    pub fn try_insert(&mut self, key: Key, tries: u32) -> Result<bool, CallFault>
        ensures tree { self.new.tree ≡ self.old.tree }
        ensures says { SaysTryInsert self.old.tree.layout tries key self.old.worker self.new.worker
            result }
    {
        if self.sealed.worker.held().is_some() {
            return Err(CallFault::Pinned);
        }
        self.home.tree().insert(&mut self.sealed.worker, key, tries)
    }

    /// Frees what has waited long enough at the front of each queue that the worker holds:
    /// `Tree::collect` of `nm_tree`.
    pub fn collect(&mut self) -> Collected
        ensures tree { self.new.tree ≡ self.old.tree }
        ensures says { LeavesCollect self.old.tree.layout.nodes self.old.worker self.new.worker result }
    {
        self.free()
    }
}

impl<V: Contents> Drop for Member<V> {
    fn drop(self) {
        let _at_home = self.close();
    }
}

/// Returns why a worker that is not on its seat does not resign.
fn reason_of(absence: Absence) -> ResignReason
    ensures { result ≡ told_absence absence }
{
    match absence {
        Absence::Number => ResignReason::Number,
        Absence::Attached => ResignReason::Attached,
    }
}
