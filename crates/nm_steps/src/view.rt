//! The knowledge of a seat, and the rule of the table.
use atomic_table::{Play, Seat, TableRule};
use nm_edge::Layout;
use nm_model::{Event, Reply, Turn};
use std::collections::LinkedList;
use std::marker::{Brand, PhantomData};

/// A worker's log, oldest entry first. Proof only: no value of it is made.
pub struct Held {
    pub number: u32,
    pub log: LinkedList<(Event, Reply)>,
}

/// A value that a worker stored for a slot that was private to it, after `at` turns of the run. Its
/// log had `own` entries then. Proof only: no value of it is made.
pub struct Stored {
    pub at: u64,
    pub worker: u32,
    pub own: u64,
    pub slot: u32,
    pub value: u64,
}

/// The knowledge of a seat: the logs of the workers that it represents, its own apart from the
/// others; the turns of the run up to its last step; the stores of values up to its last step on a
/// value; and the turns and the stores of a note that it has heard. Proof only: no value of it is
/// made.
pub struct View {
    pub layout: Layout,
    pub resigned: bool,
    pub number: u32,
    pub log: LinkedList<(Event, Reply)>,
    pub others: LinkedList<Held>,
    pub past: LinkedList<Turn>,
    pub heard: LinkedList<Turn>,
    pub stores: LinkedList<Stored>,
    pub heard_stores: LinkedList<Stored>,
}

pub struct Law;

impl TableRule<(), View, Layout> for Law {
    ghost use Rattle.nm_steps.specs.Rules.{Kept, everybody};

    ghost holds = { Kept };

    ghost first = { everybody };
}

/// The event that a step performs.
pub trait Doing {
    ghost use Rattle.nm_model.specs.declared.event.Event.{Event};

    ghost event: { Event };
}

impl Doing for Brand {
    ghost use Rattle.nm_model.specs.declared.event.Event.TheVariants.{Sight};

    ghost event = { Sight };
}

/// What a seat learns by a step.
pub struct Does<D> {
    of: PhantomData<D>,
}

impl<D: Doing> Play<(), View> for Does<D> {
    ghost use Rattle.nm_steps.specs.Rules.{Did};

    ghost then = { Did D.event };
}

/// The slots of one row of the pool that a look at it may pass over: the first one, and their
/// number.
pub trait Passing {
    ghost use Rattle.std.specs.Prelude.{ℕ};

    ghost from: { ℕ };

    ghost most: { ℕ };
}

impl Passing for Brand {
    ghost from = { 0 };

    ghost most = { 0 };
}

/// What a seat learns by a look at a row of the pool.
pub struct Passes<D> {
    of: PhantomData<D>,
}

impl<D: Passing> Play<(), View> for Passes<D> {
    ghost use Rattle.nm_steps.specs.Rows.{PassedOver};

    ghost then = { PassedOver D.from D.most };
}

/// The slot whose value a step reads or stores.
pub trait Slotted {
    ghost use Rattle.std.specs.Prelude.{ℕ};

    ghost slot: { ℕ };
}

impl Slotted for Brand {
    ghost slot = { 0 };
}

/// What a seat learns by a look at a value.
pub struct LooksAtValue<D> {
    of: PhantomData<D>,
}

impl<D: Slotted> Play<(), View> for LooksAtValue<D> {
    ghost use Rattle.nm_steps.specs.Values.{SawValue};

    ghost then = { SawValue D.slot };
}

/// What a seat learns by a look at the left edge of a slot, which is no event.
pub struct LooksAtLeft<D> {
    of: PhantomData<D>,
}

impl<D: Slotted> Play<(), View> for LooksAtLeft<D> {
    ghost use Rattle.nm_steps.specs.Values.{SawLeft};

    ghost then = { SawLeft D.slot };
}

/// What a seat learns by the store of a value.
pub struct StoresValue<D> {
    of: PhantomData<D>,
}

impl<D: Slotted> Play<(), View> for StoresValue<D> {
    ghost use Rattle.nm_steps.specs.Values.{HasStoredValue};

    ghost then = { HasStoredValue D.slot };
}

/// A read that changes nothing, by which a seat learns that its logs are parts of one run.
pub struct Ties;

impl Play<(), View> for Ties {
    ghost use Rattle.nm_steps.specs.Ties.{TellsItsStanding};

    ghost then = { TellsItsStanding };
}

pub(crate) type WorkerSeat = Seat<(), View>;
