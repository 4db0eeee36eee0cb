//! Sets and maps: a tree that gives out its workers as members, and is closed when all of them are
//! returned, or kept by the set.
ghost use Rattle.std.specs.Prelude.{◌≡◌, ℕ, length, ◌≤◌, ◌↔◌, ◌++◌, ◌∷◌, [], true, false, IfOk, IfErr, IsErrOf, OnOk, OnErr, vec_capacity};
ghost use Rattle.std.specs.Arc.{arc_value};
ghost use Rattle.nm_edge.specs.Layouts.{IsLayoutFault, in_radix, spaced};
ghost use Rattle.nm_steps.specs.Values.{HasValues};
ghost use Rattle.nm_tree.specs.Closing.{IsCloseReason, SaysClosed};
ghost use Rattle.nm_tree.specs.MapReports.{EndsMap};
ghost use Rattle.nm_tree.specs.Workers.{AreNew, HaveFit};
ghost use Rattle.nm_set.specs.Seats.{AreOwn, HasRoom, IsNewMember, IsResident, IsAnyResident, TellsAttached, site_in};
ghost use Rattle.nm_set.specs.Ends.{EndsMapSet, IsLeftOpen, IsNotKept, KeepsReturned, SaysEnded, SaysMapEnded};
ghost use Rattle.nm_set.specs.States.{IsNewSet, open_set, closing_set, room_for_one};

use crate::attach::take_any;
use crate::contents::{Contents, Keys, Values};
use crate::fault::MemberFault;
use crate::home::{Absence, Home, Site};
use crate::member::Member;
use crate::returning::ReturnedWorker;
use nm_edge::{Layout, LayoutError, MOST_SPACED_NODES};
use nm_tree::{CloseReason, Ended, Fit, MapReport, NewError, Report, Worker};
use std::alloc::Global;
use std::marker::{Model, PhantomData};
use std::sync::Arc;

/// Where the tree of a set is.
#[derive(Drop)]
pub(crate) enum State {
    /// In its home, with the workers that were returned. Members may have others.
    Open(Arc<Home, Global>),
    /// With its workers, which a close gathered before it was refused.
    Closing(Site),
}

impl State {
    /// Returns for how many workers there must be room, so that one more can be kept and all that
    /// were returned can be gathered after it.
    fn room_for_one(&self) -> usize
        ensures { result ≡ room_for_one self.now }
    {
        match self {
            State::Open(home) => 1 + home.workers(),
            State::Closing(_) => 1,
        }
    }
}

/// A set of keys, the whole numbers up to 2^64 - 4, which threads share by its members; or a map from
/// such keys to integers (`Map`). No call of a map frees a leaf without handing out its value.
#[derive(Drop)]
pub struct Set<V: Contents = Keys> {
    state: State,
    // The workers of members that the set keeps, and all workers after they were gathered.
    kept: Vec<Worker>,
    of: PhantomData<V>,
}

impl<V: Contents> Model for Set<V> {
    ghost use Rattle.std.specs.Prelude.{vec_capacity};
    ghost use Rattle.nm_set.specs.Seats.{AreOwn, SetView};
    ghost use Rattle.nm_set.specs.States.{MayGather, site_of, standing_of};

    ghost Value = { SetView };

    ghost view = { λ s. standing_of s.state s.kept.items };

    ghost invariant = { λ s. AreOwn (site_of s.state).tree s.kept.items
        × MayGather s.state s.kept.items (vec_capacity s.kept) × V.fits (site_of s.state).tree };
}

/// A map: a `Set` whose tree has a value under each key. It takes 8 bytes more for each node.
pub type Map = Set<Values>;

/// A set or a map (`S`) was not closed. After `Attached` it is unchanged. After the other errors its
/// workers were gathered, so that only `close` goes on. No worker is lost: those that it keeps are as
/// they came.
#[derive(Drop)]
pub struct CloseError<S> {
    pub reason: CloseReason,
    pub set: S,
}

/// There is no memory to keep a member (`M`). The member is unchanged.
#[derive(Drop)]
pub struct KeepError<M> {
    pub member: M,
}

/// Why a worker that was returned (`R`) is not kept.
#[derive(Drop)]
pub enum KeepReturnedError<R, M> {
    /// Another member has had the worker. What was returned is unchanged.
    Taken(R),
    /// There is no memory. A member has the worker, as it was returned.
    NoMemory(M),
}

impl<V: Contents> Set<V> {
    /// Makes the empty set, in a radix tree with room for `nodes` nodes, 7 to 268,435,456, for 1 to
    /// 64 workers, each of which announces in 128 bytes of its own. No walk goes over more than 66
    /// edges, whatever keys come in whatever order. Each worker reuses the slots that it gave back,
    /// and otherwise searches from where it found the last one: `Fit::NextFit`.
    ///
    /// Errors: `Nodes`, `Workers`, `NoMemory`: nothing is kept.
    pub fn new(alloc: Global, nodes: u32, workers: u32) -> Result<Set<V>, NewError>
        ensures open { IfOk result (IsNewSet (in_radix (spaced nodes workers)) Fit.NextFit) }
        ensures nodes { IsErrOf result NewError.Nodes
            ↔ IsLayoutFault MOST_SPACED_NODES nodes workers LayoutError.Nodes }
        ensures workers { IsErrOf result NewError.Workers
            ↔ IsLayoutFault MOST_SPACED_NODES nodes workers LayoutError.Workers }
    {
        made(
            alloc,
            Layout::spaced(nodes, workers)?.in_radix(),
            Fit::NextFit,
        )
    }

    /// Makes an open set that keeps no workers.
    pub(crate) fn of(alloc: Global, home: Arc<Home, Global>) -> Set<V>
        requires { V.fits (arc_value home).tree }
        ensures { result ≡ open_set (site_in (arc_value home)) [] }
    {
        Set {
            state: State::Open(home),
            kept: Vec::new(alloc),
            of: PhantomData,
        }
    }

    /// Gives out the worker of a number, with all that it held when it was returned. The caller has
    /// not pinned it. If it was never returned (`Member::returns`), it has done nothing yet.
    ///
    /// Errors: `Number`: the tree has no worker of that number. `Attached`: a member has the
    /// worker, or it has resigned.
    pub fn member(&self, number: u32) -> Result<Member<V>, MemberFault>
        ensures member { IfOk result
            (λ m. (m.tree ≡ self.now.tree)
            × IsResident self.now.tree self.now.fit number m.worker) }
        ensures first { IfOk result (λ m. m.returns ≡ 0 → IsNewMember self.now.tree self.now.fit number m) }
        ensures number { IsErrOf result MemberFault.Number
            ↔ ((self.now.closing ≡ false) × (self.now.tree.layout.workers ≤ number)) }
        ensures closing { IsErrOf result MemberFault.Closing ↔ (self.now.closing ≡ true) }
        ensures named { IsErrOf result MemberFault.NoWorker → ⊥ }
    {
        let home = match &self.state {
            State::Open(home) => home,
            State::Closing(_) => return Err(MemberFault::Closing),
        };
        if home.workers() <= number as usize {
            return Err(MemberFault::Number);
        }
        let Ok(home) = Arc::try_clone(home) else {
            return Err(MemberFault::Uncounted);
        };
        match home.take(number) {
            Ok((sealed, way_back)) => Ok(Member::of(home, sealed, way_back)),
            Err(Absence::Number) => Err(MemberFault::Number),
            Err(Absence::Attached) => Err(MemberFault::Attached),
        }
    }

    /// Gives out any worker that is not attached, with all that it held when it was returned. The
    /// caller has not pinned it. If it was never returned, it has done nothing yet. It looks at
    /// each seat once, in the order of their numbers, and takes the first worker that it finds
    /// (tested: which one that is).
    ///
    /// Errors: `NoWorker`: each seat was empty when it was looked at, one after the other. That no
    /// worker was free at one moment is not said: one may have been returned to a seat after the
    /// look at it.
    pub fn attach(&self) -> Result<Member<V>, MemberFault>
        ensures member { IfOk result
            (λ m. (m.tree ≡ self.now.tree) × IsAnyResident self.now.tree self.now.fit m.worker) }
        ensures first { IfOk result
            (λ m. m.returns ≡ 0 → (k : ℕ) × IsNewMember self.now.tree self.now.fit k m) }
        ensures number { IsErrOf result MemberFault.Number → ⊥ }
        ensures any { IsErrOf result MemberFault.Attached → ⊥ }
        ensures closing { IsErrOf result MemberFault.Closing ↔ (self.now.closing ≡ true) }
    {
        let State::Open(home) = &self.state else {
            return Err(MemberFault::Closing);
        };
        let Ok(home) = Arc::try_clone(home) else {
            return Err(MemberFault::Uncounted);
        };
        match take_any(&home) {
            Some((sealed, way_back)) => Ok(Member::of(home, sealed, way_back)),
            None => Err(MemberFault::NoWorker),
        }
    }

    /// Returns whether `close` would miss the worker of a number because a member has it, by the
    /// state in which its seat was found. So a program learns which member it has lost. The answer
    /// is false for a worker that has resigned, which is with its heir, and for one that the set
    /// keeps.
    ///
    /// Errors: `Number`: the tree has no worker of that number. `Closing`: a close has gathered all
    /// workers.
    pub fn is_attached(&self, number: u32) -> Result<bool, MemberFault>
        ensures { TellsAttached self.now number result }
    {
        let State::Open(home) = &self.state else {
            return Err(MemberFault::Closing);
        };
        match home.is_attached(number) {
            Some(away) => Ok(away),
            None => Err(MemberFault::Number),
        }
    }

    /// Keeps the worker of a member for `close`, with all that it did, holds and has pending. It is
    /// not on its seat, so no `member` gives it out. The report of the set accounts for what the
    /// member was answered, as `close` says.
    ///
    /// The member must be of this set, which nobody can test. So this call has a condition, and is
    /// for callers that prove something of the report. Others close their members. If a growth is
    /// refused, nothing has changed.
    pub fn keep(&mut self, member: Member<V>) -> Result<(), KeepError<Member<V>>>
        requires own { member.tree ≡ self.old.tree }
        ensures kept { OnOk result
            (self.new ≡ record self.old { kept = self.old.kept ++ member.worker ∷ [] }) }
        ensures same { OnErr result (self.new ≡ self.old) }
        ensures refused { IfErr result (λ e. e.member ≡ member) }
    {
        match self.kept.reserve(self.state.room_for_one()) {
            Ok(()) => {
                member.stay_with(&mut self.kept);
                Ok(())
            }
            Err(_) => Err(KeepError { member }),
        }
    }

    /// Keeps a worker that was returned, for `close`: it is taken again by its ticket, as it was,
    /// and kept as by `keep`. So the report of the set goes on from all that it had done and seen.
    ///
    /// The worker must be one of this set, like the member of `keep`.
    ///
    /// Errors: `Taken`: another member has had the worker. `NoMemory`. The set is unchanged.
    pub fn keep_returned(
        &mut self,
        returned: ReturnedWorker<V>,
    ) -> Result<(), KeepReturnedError<ReturnedWorker<V>, Member<V>>>
        requires own { returned.tree ≡ self.old.tree }
        ensures kept { OnOk result (KeepsReturned self.old returned self.new) }
        ensures same { OnErr result (self.new ≡ self.old) }
        ensures refused { IfErr result (IsNotKept returned) }
    {
        let member = match returned.again() {
            Ok(member) => member,
            Err(returned) => return Err(KeepReturnedError::Taken(returned)),
        };
        match self.keep(member) {
            Ok(()) => Ok(()),
            Err(error) => Err(KeepReturnedError::NoMemory(error.member)),
        }
    }

    /// Proof only: establishes that the tree has values, if this is a map. No run-time effect.
    pub fn know_values(&self)
        ensures values { V.fits self.now.tree }
    {
        let _state = &self.state;
    }

    /// Ends the set, like `close`, and returns its words too, with the values of a map among them.
    ///
    /// Errors: those of `close`.
    pub(crate) fn end(self) -> Result<Ended, CloseError<Set<V>>>
        ensures says { IfOk result (λ r. SaysEnded self r.report) }
        ensures values { HasValues self.tree → IfOk result (EndsMapSet self) }
        ensures refused { IfErr result (λ e. IsLeftOpen self e.reason e.set) }
    {
        let Set { state, kept, of: _ } = self;
        match state {
            State::Closing(site) => end(site, kept),
            State::Open(home) => match Arc::try_unwrap(home) {
                Ok(home) => {
                    let (site, workers) = home.gather(kept);
                    end(site, workers)
                }
                Err(home) => Err(left_open(home, kept)),
            },
        }
    }
}

impl Set<Keys> {
    /// Makes the empty set in the tree of Natarajan and Mittal, in which keys that come in order
    /// make one long path, and with the given fit. With `Fit::FirstFit` a new node takes the lowest
    /// free slot: for tests that compare slots.
    pub fn unbalanced(alloc: Global, nodes: u32, workers: u32, fit: Fit) -> Result<Set, NewError>
        ensures open { IfOk result (IsNewSet (spaced nodes workers) fit) }
        ensures nodes { IsErrOf result NewError.Nodes
            ↔ IsLayoutFault MOST_SPACED_NODES nodes workers LayoutError.Nodes }
        ensures workers { IsErrOf result NewError.Workers
            ↔ IsLayoutFault MOST_SPACED_NODES nodes workers LayoutError.Workers }
    {
        made(alloc, Layout::spaced(nodes, workers)?, fit)
    }

    /// Ends the set when all its members are closed or kept, and returns the report: `Tree::close`
    /// of `nm_tree`, over the workers that the set keeps and those that were returned. A caller may
    /// hold a kept worker, and a key may be pending. The report goes on from all that each kept
    /// worker had done and seen, also of one that was kept after it was returned.
    ///
    /// Errors: `Attached`: a member is neither closed nor kept; the set is unchanged. `NotAll`,
    /// `NoMemory`: see `CloseReason`; the set keeps all workers that it has gathered, and `close`
    /// can be called again. So the set that is handed back shows which it was.
    pub fn close(self) -> Result<Report, CloseError<Set>>
        ensures says { IfOk result (SaysEnded self) }
        ensures refused { IfErr result (λ e. IsLeftOpen self e.reason e.set) }
    {
        Ok(self.end()?.into_report())
    }
}

impl Set<Values> {
    /// Ends the map when all its members are closed or kept, and returns the report, like the
    /// `close` of a set, with the values that have not come back: the one under each key of the
    /// report, and those of the leaves that wait in its queues. So each inserted value has come back
    /// once.
    ///
    /// Errors: those of the `close` of a set.
    pub fn close(self) -> Result<MapReport, CloseError<Map>>
        ensures says { IfOk result (SaysMapEnded self) }
        ensures refused { IfErr result (λ e. IsLeftOpen self e.reason e.set) }
    {
        self.know_values();
        match self.end() {
            Ok(ended) => Ok(ended.into_map_report()),
            Err(error) => Err(error),
        }
    }
}

/// Makes the empty set of a layout, whose workers claim by that fit. The only error is `NoMemory`.
fn made<V: Contents>(alloc: Global, layout: Layout, fit: Fit) -> Result<Set<V>, NewError>
    ensures open { IfOk result (IsNewSet layout fit) }
    ensures memory { IfErr result (λ e. e ≡ NewError.NoMemory) }
{
    let (tree, all) = V::tree(alloc, layout, fit)?;
    settle(alloc, Site { tree, fit }, all, layout.workers())
}

/// Makes a set of a new tree and puts all its workers on their seats.
pub(crate) fn settle<V: Contents>(
    alloc: Global,
    site: Site,
    workers: Vec<Worker>,
    seats: u32,
) -> Result<Set<V>, NewError>
    requires contents { V.fits site.tree }
    requires new { AreNew site.tree 0 workers.items }
    requires all { length workers.items ≡ seats }
    requires each { site.tree.layout.workers ≡ seats }
    requires fit { HaveFit site.fit workers.items }
    ensures set { IfOk result (λ s. s ≡ open_set site []) }
    ensures memory { IfErr result (λ e. e ≡ NewError.NoMemory) }
{
    let Ok(home) = Home::of(alloc, site, workers, seats) else {
        return Err(NewError::NoMemory);
    };
    match Arc::new(alloc, home) {
        Ok(home) => Ok(Set::of(alloc, home)),
        Err(_) => Err(NewError::NoMemory),
    }
}

/// Returns an open set unchanged, because others have its home.
fn left_open<V: Contents>(home: Arc<Home, Global>, kept: Vec<Worker>) -> CloseError<Set<V>>
    requires contents { V.fits (arc_value home).tree }
    requires own { AreOwn (arc_value home).tree kept.items }
    requires room { HasRoom (arc_value home).tree kept.items (vec_capacity kept) }
    ensures told { result.reason ≡ CloseReason.Attached }
    ensures set { result.set ≡ open_set (site_in (arc_value home)) kept.items }
{
    CloseError {
        reason: CloseReason::Attached,
        set: Set {
            state: State::Open(home),
            kept,
            of: PhantomData,
        },
    }
}

/// Closes a tree whose workers were gathered.
pub(crate) fn end<V: Contents>(
    site: Site,
    workers: Vec<Worker>,
) -> Result<Ended, CloseError<Set<V>>>
    requires contents { V.fits site.tree }
    requires own { AreOwn site.tree workers.items }
    ensures says { IfOk result (λ r. SaysClosed site.tree workers.items r.report.queues.items
        r.report.keys.items r.report.free r.report.reached) }
    ensures values { HasValues site.tree → IfOk result (λ r. EndsMap site.tree workers.items
        r.report.queues.items r.report.keys.items r.leaves.items r.words r.layout r.report.free
        r.report.reached) }
    ensures refused { IfErr result (λ e. e.set ≡ closing_set site workers.items) }
    ensures reason { IfErr result (λ e. IsCloseReason site.tree workers.items e.reason) }
{
    let Site { tree, fit } = site;
    match tree.end(workers) {
        Ok(ended) => Ok(ended),
        Err(error) => Err(CloseError {
            reason: error.reason,
            set: Set {
                state: State::Closing(Site {
                    tree: error.tree,
                    fit,
                }),
                kept: error.workers,
                of: PhantomData,
            },
        }),
    }
}
