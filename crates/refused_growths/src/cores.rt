//! Plays schedules on cores whose growths may be refused. If a run stops because memory was
//! refused, the core must be in the same state as another core on which only the counted events
//! were played. Then the rest is run.
ghost use Rattle.std.specs.Prelude.{◌≡◌, IfOk};
ghost use Rattle.nm_edge.specs.Layouts.{dense};
ghost use Rattle.nm_model.specs.Ordered.{opening_of, after_in};

use crate::schedules::{CHAIN, in_order};
use anyhow::{Context, Result, bail};
use nm_core::{Core, Event, NewError};
use nm_edge::Key;
use std::alloc::{AllocGlobal, Global};

const NODES: u32 = 16;

/// Each core has two workers.
const WORKERS: u32 = 2;

/// Makes a new core.
fn open_once(alloc: Global, is_ordered: bool) -> std::result::Result<Core, NewError>
    ensures { IfOk result (λ core. core ≡ opening_of (dense NODES WORKERS) is_ordered) }
{
    if is_ordered {
        Core::ordered(alloc, NODES, WORKERS)
    } else {
        Core::new(alloc, NODES, WORKERS)
    }
}

/// Makes a new core, with a second attempt if memory was refused.
fn open(alloc: Global, is_ordered: bool) -> Result<Core>
    ensures { IfOk result (λ core. core ≡ opening_of (dense NODES WORKERS) is_ordered) }
{
    match open_once(alloc, is_ordered) {
        Err(NewError::NoMemory) => open_once(alloc, is_ordered).context("the core"),
        made => made.context("the core"),
    }
}

/// Returns the events as a vector, with a second attempt if memory was refused.
fn listed(alloc: Global, events: &[(u32, Event)]) -> Result<Vec<(u32, Event)>>
    ensures { IfOk result (λ list. list.items ≡ events.now) }
{
    match Vec::from_slice(alloc, events) {
        Ok(list) => Ok(list),
        Err(_) => Vec::from_slice(alloc, events).context("the events"),
    }
}

/// Returns the keys of the set, with a second attempt if memory was refused.
fn keys_of(core: &Core) -> Result<Vec<Key>> {
    match core.keys() {
        Ok(keys) => Ok(keys),
        Err(_) => core.keys().context("the keys"),
    }
}

/// Returns whether both cores have the same ledger of a worker: what its splices cut off.
fn have_same_ledger(one: &Core, other: &Core, worker: u32) -> bool {
    let (Some(ledger), Some(wanted)) = (one.ledger(worker), other.ledger(worker)) else {
        return false;
    };
    ledger.retired.as_slice() == wanted.retired.as_slice()
        && ledger.freed.as_slice() == wanted.freed.as_slice()
        && ledger.queue.as_slice() == wanted.queue.as_slice()
        && one.holder(worker) == other.holder(worker)
}

/// Returns whether both cores report the same state.
fn are_alike(one: &Core, other: &Core) -> Result<bool> {
    Ok(
        one.epoch() == other.epoch()
            && one.places() == other.places()
            && have_same_ledger(one, other, 0)
            && have_same_ledger(one, other, 1)
            && keys_of(one)?.as_slice() == keys_of(other)?.as_slice(),
    )
}

/// Returns whether a core reports the same state as a new core on which only these events were
/// played.
fn is_left_by(
    alloc: Global,
    is_ordered: bool,
    events: &[(u32, Event)],
    core: &Core,
) -> Result<bool> {
    let mut other = open(alloc, is_ordered)?;
    other
        .run(listed(alloc, events)?)
        .context("the events that were done")?;
    are_alike(core, &other)
}

/// Runs the events on a new core. If memory is refused, it compares the state with the one that the
/// events leave which were done, and runs the rest.
fn play(alloc: Global, is_ordered: bool, events: &[(u32, Event)]) -> Result<Core>
    ensures { IfOk result (λ core. core
        ≡ after_in (opening_of (dense NODES WORKERS) is_ordered) events.now) }
{
    let mut core = open(alloc, is_ordered)?;
    let Err(error) = core.run(listed(alloc, events)?) else {
        return Ok(core);
    };
    let (done, rest) = events.split_at(error.done);
    if !is_left_by(alloc, is_ordered, done, &core)? {
        bail!(
            "the first {} events were done, and left something else",
            error.done
        );
    }
    let Ok(_trace) = core.run(listed(alloc, rest)?) else {
        bail!("the rest of the events was refused too");
    };
    Ok(core)
}

/// Prints what a worker's splices cut off, and which worker holds its queue.
fn tell_worker(rt: &impl Print, core: &Core, worker: u32) -> Result<()> {
    let ledger = core.ledger(worker).context("a ledger")?;
    for node in ledger.retired.as_slice() {
        println!(rt; "worker {worker} retired {}.{}", node.slot, node.birth)?;
    }
    for node in ledger.freed.as_slice() {
        println!(rt; "worker {worker} freed {}.{}", node.slot, node.birth)?;
    }
    for entry in ledger.queue.as_slice() {
        println!(rt;
            "worker {worker} queued {}.{}",
            entry.node.slot, entry.node.birth
        )?;
    }
    let holder = core.holder(worker).context("a holder")?;
    println!(rt; "worker {worker} held by {holder}")?;
    Ok(())
}

/// Prints the state that a core reports.
fn tell(rt: &impl Print, core: &Core) -> Result<()> {
    for worker in 0..WORKERS {
        tell_worker(rt, core, worker)?;
    }
    for key in &keys_of(core)? {
        println!(rt; "key {}", key.get())?;
    }
    let places = core.places();
    println!(rt; "epoch {}", core.epoch())?;
    println!(rt;
        "pool {} private {} reached {} queued {}",
        places.pool, places.private, places.reached, places.queued
    )?;
    Ok(())
}

/// Plays both schedules, and prints the state that each leaves.
pub fn play_cores<R: AllocGlobal + Print>(rt: &R) -> Result<()> {
    let key = Key::new(5).context("a key")?;
    let chain = play(rt.alloc(), false, &CHAIN)?;
    tell(rt, &chain)?;
    let ordered = play(rt.alloc(), true, &in_order(key))?;
    tell(rt, &ordered)
}
