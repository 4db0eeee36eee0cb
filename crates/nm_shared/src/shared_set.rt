//! Calls of a set or a map by any thread, each by a worker that is borrowed for that call.
ghost use Rattle.std.specs.Prelude.{◌≡◌, ◌++◌, ◌∷◌, [], length, Some, None, IfOk, IfErr, IfSome, IfNone};
ghost use Rattle.nm_edge.specs.Layouts.{in_radix, spaced};
ghost use Rattle.nm_lending.specs.Visits.{AreApart, AreInOrder, AreSeated};
ghost use Rattle.nm_model.specs.declared.event.Op.TheVariants.{Has, Insert, Delete};
ghost use Rattle.nm_set.specs.Managed.{of_insert};
ghost use Rattle.nm_set.specs.Seats.{AreNewMembers, MemberView};
ghost use Rattle.nm_set.specs.States.{IsNewSet};
ghost use Rattle.nm_shared.specs.Sharing.{HasHeardNote, IsBorrowed, IsCallerOf, MayComeBack, NoneWasFree, SaysShared, SitsIn, goes_on, note_of};

use nm_edge::Key;
use nm_lending::{Caller as Visitor, LendRule, Lending, Loan};
use nm_set::{CallFault, Contents, Fit, InsertFault, Keys, Member, NewError, Options, Set, Values};
use nm_steps::Note;
use std::alloc::{AllocError, Global};
use std::marker::Model;

/// A worker of a shared set or map, in a block of its own, so that a loan moves one word.
#[derive(Drop)]
pub(crate) struct Worker<V: Contents> {
    pub member: Box<Member<V>>,
}

impl<V: Contents> Model for Worker<V> {
    ghost use Rattle.nm_set.specs.Seats.{MemberView};

    ghost Value = { MemberView };

    ghost view = { λ w. w.member.value };
}

/// On each seat sits the worker of its number, and it only goes on.
pub(crate) struct Sharing;

impl<V: Contents> LendRule<Worker<V>, Set<V>> for Sharing {
    ghost use Rattle.nm_shared.specs.Sharing.{SitsIn, goes_on};

    ghost resident = { SitsIn };

    ghost goes = { goes_on };
}

/// A set, or a map, that any thread calls through a shared reference.
#[derive(Drop)]
pub struct SharedSet<V: Contents = Keys> {
    set: Set<V>,
    workers: Lending<Worker<V>, Set<V>, Sharing>,
}

/// A map that any thread calls through a shared reference.
pub type SharedMap = SharedSet<Values>;

impl<V: Contents> Model for SharedSet<V> {
    ghost use Rattle.std.specs.Prelude.{◌≡◌, ◌<◌};
    ghost use Rattle.nm_shared.specs.Sharing.{SharedView};

    ghost Value = { SharedView };

    ghost view = { λ s. record { set = s.set; table = s.workers.table } };

    ghost invariant = { λ s. (s.workers.site ≡ s.set) × (0 < s.workers.table.words) };
}

/// Who calls a shared set or map: a thread, or a task. It has the number of the worker that it
/// borrowed last, from which it looks for the next one, and for proofs what it has learned.
#[derive(Drop)]
pub struct Caller<V: Contents = Keys> {
    visits: Visitor<Worker<V>, Set<V>>,
    note: Option<Note>,
}

/// Who calls a shared map.
pub type MapCaller = Caller<Values>;

impl<V: Contents> Model for Caller<V> {
    ghost use Rattle.nm_shared.specs.Sharing.{CallerView};

    ghost Value = { CallerView };

    ghost view = { λ c. record {
      table = c.visits.table;
      site = c.visits.site;
      visits = c.visits.visits;
      note = c.note;
      looks = c.visits.looks;
    } };
}

/// Puts each member on the seat of its number.
fn seated<V: Contents>(
    alloc: Global,
    set: &Set<V>,
    members: Vec<Member<V>>,
) -> Result<Vec<Option<Worker<V>>>, AllocError>
    requires new { AreNewMembers set.now.tree set.now.fit 0 members.items }
    ensures new { IfOk result (λ ms. AreSeated SitsIn set.now 0 ms.items) }
    ensures count { IfOk result (λ ms. length ms.items ≡ length members.items) }
{
    let _set = set;
    let mut on_seats = Vec::with_capacity(alloc, members.len())?;
    for member in members {
        let member = Box::new(alloc, member)?;
        on_seats.push_reserved(Some(Worker { member }));
    }
    Ok(on_seats)
}

/// Hears a note, if there is one.
fn hear<V: Contents>(member: &mut Member<V>, note: Option<Note>)
    requires table { IfSome note (λ n. n.table ≡ member.old.tree.table) }
    ensures tree { member.new.tree ≡ member.old.tree }
    ensures heard { HasHeardNote member.old.worker note member.new.worker }
{
    if let Some(note) = note {
        member.hear(note);
    }
}

impl<V: Contents> SharedSet<V> {
    /// Makes an empty radix tree with this number of nodes and workers, like `Set::new`.
    ///
    /// Errors: `Nodes`, `Workers`: a number is too small or too large. `NoMemory`.
    pub fn new(alloc: Global, nodes: u32, workers: u32) -> Result<SharedSet<V>, NewError>
        ensures { IfOk result
            (λ s. IsNewSet (in_radix (spaced nodes workers)) Fit.NextFit s.set) }
    {
        let (set, members) = match Set::with_members(alloc, nodes, workers) {
            Ok(made) => made,
            Err(error) => return Err(error),
        };
        let Ok(on_seats) = seated(alloc, &set, members) else {
            return Err(NewError::NoMemory);
        };
        let Ok(workers) = Lending::new(alloc, &set, on_seats) else {
            return Err(NewError::NoMemory);
        };
        if workers.len() == 0 {
            return Err(NewError::Workers);
        }
        Ok(SharedSet { set, workers })
    }

    /// Returns the number of workers, and so of calls that can be in progress at the same time.
    pub fn workers(&self) -> usize
        ensures { result ≡ self.now.table.words }
    {
        self.workers.len()
    }

    /// Makes a caller, which has made no calls.
    pub fn caller(&self) -> Caller<V>
        ensures own { IsCallerOf self.now result }
        ensures visits { result.visits ≡ [] }
        ensures note { result.note ≡ None }
    {
        Caller {
            visits: self.workers.caller(),
            note: None,
        }
    }

    /// Borrows a worker, which hears what the caller has learned.
    pub(crate) fn borrow(
        &self,
        caller: Caller<V>,
    ) -> Result<(Worker<V>, Loan<Worker<V>, Set<V>>), Caller<V>>
        requires own { IsCallerOf self.now caller }
        ensures lent { IfOk result (λ r. IsBorrowed self.now caller r.0 r.1) }
        ensures refused { IfErr result (NoneWasFree self.now caller) }
    {
        let Caller { visits, note } = caller;
        let near = visits.seat();
        match self.workers.lend_near(visits, near) {
            Ok((worker, loan)) => {
                let mut worker = worker;
                hear(&mut worker.member, note);
                Ok((worker, loan))
            }
            Err(visits) => Err(Caller { visits, note }),
        }
    }

    /// Gives a worker back, and notes what it has seen.
    pub(crate) fn give_back(&self, loan: Loan<Worker<V>, Set<V>>, worker: Worker<V>) -> Caller<V>
        requires back { MayComeBack self.now loan worker }
        ensures own { IsCallerOf self.now result }
        ensures visits { (x : MemberView) → loan.taken ≡ Some x
            → result.visits ≡ loan.visits
            ++ record { seat = loan.seat; turn = loan.turn; was = x; left = worker } ∷ [] }
        ensures note { result.note ≡ Some (note_of worker) }
    {
        let mut worker = worker;
        let note = Some(worker.member.note());
        let visits = self.workers.give_back(loan, worker);
        Caller { visits, note }
    }

    /// Returns whether the set has the key: `Member::contains` of `nm_set`, by a worker that no
    /// other call has. The call happens after all earlier calls of this caller. `None`: each worker
    /// was found borrowed, one after the other; nothing has changed.
    ///
    /// Errors: those of `Member::contains`, except `Pinned`.
    /// Cost: that of `Member::contains`, a load and a compare-exchange for the worker, and a store.
    pub fn contains(
        &self,
        caller: Caller<V>,
        key: Key,
        options: &Options,
    ) -> (Caller<V>, Option<Result<bool, CallFault>>)
        requires own { IsCallerOf self.now caller }
        ensures own { IsCallerOf self.now result.0 }
        ensures says { IfSome result.1 (SaysShared Has self.now options.now key caller result.0) }
        ensures refused { IfNone result.1 (NoneWasFree self.now caller result.0) }
    {
        match self.borrow(caller) {
            Ok((worker, loan)) => {
                let mut worker = worker;
                let told = worker.member.contains(key, options);
                (self.give_back(loan, worker), Some(told))
            }
            Err(caller) => (caller, None),
        }
    }

    /// Takes over the visits of another caller, so that `show` speaks of both. Costs a load.
    pub fn join(&self, caller: &mut Caller<V>, other: Caller<V>)
        requires own { IsCallerOf self.now caller.old }
        requires other { IsCallerOf self.now other }
        ensures own { IsCallerOf self.now caller.new }
        ensures visits { caller.new.visits ≡ caller.old.visits ++ other.visits }
        ensures note { caller.new.note ≡ caller.old.note }
    {
        self.workers.join(&mut caller.visits, other.visits);
    }

    /// Proof only: no two of the caller's visits are the same one; and of two visits to one worker,
    /// what the earlier one left led to what the later one found. Costs a load.
    pub fn show(&self, caller: &mut Caller<V>)
        requires own { IsCallerOf self.now caller.old }
        ensures same { caller.new ≡ caller.old }
        ensures apart { AreApart caller.old.visits }
        ensures order { AreInOrder (goes_on self.now.set) caller.old.visits }
    {
        self.workers.show(&mut caller.visits);
    }
}

impl SharedSet<Keys> {
    /// Inserts `key`; returns true if it was absent: `Member::insert`, in the same way.
    ///
    /// Errors: those of `Member::insert`, except `Pinned`.
    pub fn insert(
        &self,
        caller: Caller,
        key: Key,
        options: &Options,
    ) -> (Caller, Option<Result<bool, InsertFault>>)
        requires own { IsCallerOf self.now caller }
        ensures own { IsCallerOf self.now result.0 }
        ensures says { IfSome result.1
            (λ told. SaysShared Insert self.now options.now key caller result.0 (of_insert told)) }
        ensures refused { IfNone result.1 (NoneWasFree self.now caller result.0) }
    {
        match self.borrow(caller) {
            Ok((worker, loan)) => {
                let mut worker = worker;
                let told = worker.member.insert(key, options);
                (self.give_back(loan, worker), Some(told))
            }
            Err(caller) => (caller, None),
        }
    }

    /// Removes `key`; returns true if it was present: `Member::remove`, in the same way.
    ///
    /// Errors: those of `Member::remove`, except `Pinned`. After `Unfinished` the next call that
    /// borrows the same worker finishes the remove first.
    pub fn remove(
        &self,
        caller: Caller,
        key: Key,
        options: &Options,
    ) -> (Caller, Option<Result<bool, CallFault>>)
        requires own { IsCallerOf self.now caller }
        ensures own { IsCallerOf self.now result.0 }
        ensures says { IfSome result.1
            (SaysShared Delete self.now options.now key caller result.0) }
        ensures refused { IfNone result.1 (NoneWasFree self.now caller result.0) }
    {
        match self.borrow(caller) {
            Ok((worker, loan)) => {
                let mut worker = worker;
                let told = worker.member.remove(key, options);
                (self.give_back(loan, worker), Some(told))
            }
            Err(caller) => (caller, None),
        }
    }
}
