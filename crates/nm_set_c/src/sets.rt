//! Calls on a set, by its handle.
ghost use Rattle.std.specs.Prelude.{◌≡◌};
ghost use Rattle.nm_edge.specs.Layouts.{in_radix, spaced};
ghost use Rattle.nm_edge.specs.declared.placement.Fit.TheVariants.{FirstFit, NextFit};
ghost use Rattle.nm_set_c.specs.Handles.{held_by};
ghost use Rattle.nm_set_c.specs.Outcomes.{IsCodeOf};
ghost use Rattle.nm_set_c.specs.Sets.{MakesSet, GivesNumbered, TakesWorker, Attaches, GivesAny, Misses, MissesOwned, GivesUp};

use crate::handle::Handle;
use crate::opening::{by_two_handles, open};
use crate::outcome::Outcome;
use crate::owner::Owner;
use nm_set::{Fit, Set};
use std::alloc::Global;

/// Makes the empty set, in a radix tree with room for `nodes` nodes, 7 to 268,435,456, for 1 to 64
/// workers: `Set::new` of `nm_set`. No walk goes over more than 66 edges, whatever keys come in
/// whatever order. Returns `Done`, and the handle is open. Errors: `Open`, `InUse`, `Nodes`,
/// `Workers`, `NoMemory`.
#[unsafe(no_mangle)]
pub extern "C" fn nm_set_new(alloc: Global, set: &mut Handle, nodes: u32, workers: u32) -> i32
    ensures { IsCodeOf (MakesSet NextFit (in_radix (spaced nodes workers)) nodes workers
        (held_by set.old) (held_by set.new)) result }
{
    match set.reserve(alloc) {
        Ok(()) => {}
        Err(told) => return told.code(),
    }
    match Set::new(alloc, nodes, workers) {
        Ok(made) => open(alloc, set, Owner::Set(made)).code(),
        Err(error) => {
            set.shut();
            Outcome::of_new(error).code()
        }
    }
}

/// Makes the empty set in the tree of Natarajan and Mittal, in which keys that come in order make
/// one long path: `Set::unbalanced` of `nm_set`, with next fit. Returns and errors: as of
/// `nm_set_new`.
#[unsafe(no_mangle)]
pub extern "C" fn nm_set_new_unbalanced(
    alloc: Global,
    set: &mut Handle,
    nodes: u32,
    workers: u32,
) -> i32
    ensures { IsCodeOf (MakesSet NextFit (spaced nodes workers) nodes workers
        (held_by set.old) (held_by set.new)) result }
{
    match set.reserve(alloc) {
        Ok(()) => {}
        Err(told) => return told.code(),
    }
    match Set::unbalanced(alloc, nodes, workers, Fit::NextFit) {
        Ok(made) => open(alloc, set, Owner::Set(made)).code(),
        Err(error) => {
            set.shut();
            Outcome::of_new(error).code()
        }
    }
}

/// Makes the same set as `nm_set_new_unbalanced`, with first fit: a new node takes the lowest free
/// slot. For tests that compare slots.
#[unsafe(no_mangle)]
pub extern "C" fn nm_set_new_first_fit(
    alloc: Global,
    set: &mut Handle,
    nodes: u32,
    workers: u32,
) -> i32
    ensures { IsCodeOf (MakesSet FirstFit (spaced nodes workers) nodes workers
        (held_by set.old) (held_by set.new)) result }
{
    match set.reserve(alloc) {
        Ok(()) => {}
        Err(told) => return told.code(),
    }
    match Set::unbalanced(alloc, nodes, workers, Fit::FirstFit) {
        Ok(made) => open(alloc, set, Owner::Set(made)).code(),
        Err(error) => {
            set.shut();
            Outcome::of_new(error).code()
        }
    }
}

/// Takes the worker of a number, with all that it held when it was returned, and not pinned:
/// `Set::member` of `nm_set`. Returns `Done`, and the worker's handle is open.
///
/// Errors: `Open`, `InUse` (of the worker's handle), `Number`, `Attached`, `Closing`, `Uncounted`,
/// `NoMemory`; `Closed`, `InUse`, `Kind` (of the set's handle).
///
/// Several threads may take workers by one handle of a set. Each has that handle only for the
/// moment of the take, and looks again for a while if another one has it.
#[tactic(auto, using(crate::proofs::Holds::refused_same, crate::proofs::Holds::refused_there))]
#[unsafe(no_mangle)]
pub extern "C" fn nm_set_worker(
    alloc: Global,
    set: &mut Handle,
    worker: &mut Handle,
    number: u32,
) -> i32
    ensures worker { IsCodeOf (TakesWorker number (held_by set.old) (held_by worker.old)
        (held_by worker.new)) result }
    ensures set { held_by set.new ≡ held_by set.old }
{
    by_two_handles!(alloc, set, worker, owner => member_of(&owner, number))
}

fn member_of(owner: &Owner, number: u32) -> Result<Owner, Outcome>
    ensures { GivesNumbered Owner.Set Owner.Worker number owner.now result }
{
    let Owner::Set(set) = owner else {
        return Err(Outcome::Kind);
    };
    match set.member(number) {
        Ok(member) => Ok(Owner::Worker(member)),
        Err(fault) => Err(Outcome::of_taking(fault)),
    }
}

/// Takes any worker that is not attached: `Set::attach` of `nm_set`, which looks at the seats in
/// the order of their numbers (tested). Returns and errors: as of `nm_set_worker`, with `NoWorker`
/// instead of `Number` and `Attached`.
#[tactic(auto, using(crate::proofs::Holds::refused_same, crate::proofs::Holds::refused_there))]
#[unsafe(no_mangle)]
pub extern "C" fn nm_set_attach(alloc: Global, set: &mut Handle, worker: &mut Handle) -> i32
    ensures worker { IsCodeOf (Attaches (held_by set.old) (held_by worker.old) (held_by worker.new))
        result }
    ensures set { held_by set.new ≡ held_by set.old }
{
    by_two_handles!(alloc, set, worker, owner => any_of(&owner))
}

fn any_of(owner: &Owner) -> Result<Owner, Outcome>
    ensures { GivesAny Owner.Set Owner.Worker owner.now result }
{
    let Owner::Set(set) = owner else {
        return Err(Outcome::Kind);
    };
    match set.attach() {
        Ok(member) => Ok(Owner::Worker(member)),
        Err(fault) => Err(Outcome::of_taking(fault)),
    }
}

/// Returns `Yes` if a close would miss the worker of a number because a handle has it, and else
/// `No`: `Set::is_attached` of `nm_set`. Errors: `Number`, `Closing`, `Closed`, `InUse`, `Kind`.
#[tactic(auto, using(crate::proofs::Holds::refused_same, crate::proofs::Holds::refused_there))]
#[unsafe(no_mangle)]
pub extern "C" fn nm_set_attached(alloc: Global, set: &mut Handle, number: u32) -> i32
    ensures told { IsCodeOf (Misses number (held_by set.old)) result }
    ensures set { held_by set.new ≡ held_by set.old }
{
    let owner = match set.claim_soon(alloc) {
        Ok(owner) => owner,
        Err(told) => return told.code(),
    };
    let outcome = is_attached(&owner, number);
    set.put(owner);
    outcome.code()
}

fn is_attached(owner: &Owner, number: u32) -> Outcome
    ensures { MissesOwned Owner.Set number owner.now result }
{
    let Owner::Set(set) = owner else {
        return Outcome::Kind;
    };
    match set.is_attached(number) {
        Ok(answer) => Outcome::of(answer),
        Err(fault) => Outcome::of_taking(fault),
    }
}

/// Gives up what a handle owns, and closes the handle. A worker is returned, and can be taken
/// again. A set that was not closed is left to its workers, the last of which ends it. A report is
/// forgotten. Returns `Done`. Errors: `Closed`, `InUse`.
#[unsafe(no_mangle)]
pub extern "C" fn nm_drop(alloc: Global, handle: &mut Handle) -> i32
    ensures { IsCodeOf (GivesUp (held_by handle.old) (held_by handle.new)) result }
{
    let owner = match handle.claim(alloc) {
        Ok(owner) => owner,
        Err(told) => return told.code(),
    };
    drop(owner);
    handle.shut();
    Outcome::Done.code()
}
