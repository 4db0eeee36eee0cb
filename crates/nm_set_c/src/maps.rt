//! Calls on a map, by its handle.
ghost use Rattle.std.specs.Prelude.{◌≡◌};
ghost use Rattle.nm_edge.specs.Layouts.{in_radix, spaced};
ghost use Rattle.nm_edge.specs.declared.placement.Fit.TheVariants.{NextFit};
ghost use Rattle.nm_set_c.specs.Handles.{held_by};
ghost use Rattle.nm_set_c.specs.Maps.{MakesMap, TakesMapWorker, AttachesToMap, MissesOfMap, EndsMap, LeavesMapReport};
ghost use Rattle.nm_set_c.specs.Outcomes.{IsCodeOf};
ghost use Rattle.nm_set_c.specs.Sets.{EndsOwned, GivesAny, GivesNumbered, MissesOwned};

use crate::handle::Handle;
use crate::opening::{by_two_handles, open};
use crate::outcome::Outcome;
use crate::owner::Owner;
use crate::remains::Remains;
use nm_set::{Map, MapReport};
use std::alloc::Global;
use std::mem::replace;

/// Makes the empty map that is like the set of `nm_set_new`: `Map::new` of `nm_set`. It takes 8
/// bytes more for each node. Returns `Done`, and the handle is open. Errors: `Open`, `InUse`,
/// `Nodes`, `Workers`, `NoMemory`.
#[unsafe(no_mangle)]
pub extern "C" fn nm_map_new(alloc: Global, map: &mut Handle, nodes: u32, workers: u32) -> i32
    ensures { IsCodeOf (MakesMap NextFit (in_radix (spaced nodes workers)) nodes workers
        (held_by map.old) (held_by map.new)) result }
{
    match map.reserve(alloc) {
        Ok(()) => {}
        Err(told) => return told.code(),
    }
    match Map::new(alloc, nodes, workers) {
        Ok(made) => open(alloc, map, Owner::Map(made)).code(),
        Err(error) => {
            map.shut();
            Outcome::of_new(error).code()
        }
    }
}

/// Takes the worker of a number, with all that it held when it was returned, and not pinned:
/// `Map::member` of `nm_set`. Returns and errors: as of `nm_set_worker`.
#[tactic(auto, using(crate::proofs::Holds::refused_same, crate::proofs::Holds::refused_there))]
#[unsafe(no_mangle)]
pub extern "C" fn nm_map_worker(
    alloc: Global,
    map: &mut Handle,
    worker: &mut Handle,
    number: u32,
) -> i32
    ensures worker { IsCodeOf (TakesMapWorker number (held_by map.old) (held_by worker.old)
        (held_by worker.new)) result }
    ensures map { held_by map.new ≡ held_by map.old }
{
    by_two_handles!(alloc, map, worker, owner => member_of(&owner, number))
}

fn member_of(owner: &Owner, number: u32) -> Result<Owner, Outcome>
    ensures { GivesNumbered Owner.Map Owner.MapWorker number owner.now result }
{
    let Owner::Map(map) = owner else {
        return Err(Outcome::Kind);
    };
    match map.member(number) {
        Ok(member) => Ok(Owner::MapWorker(member)),
        Err(fault) => Err(Outcome::of_taking(fault)),
    }
}

/// Takes any worker that is not attached: `Map::attach` of `nm_set`. Returns and errors: as of
/// `nm_set_attach`.
#[tactic(auto, using(crate::proofs::Holds::refused_same, crate::proofs::Holds::refused_there))]
#[unsafe(no_mangle)]
pub extern "C" fn nm_map_attach(alloc: Global, map: &mut Handle, worker: &mut Handle) -> i32
    ensures worker { IsCodeOf (AttachesToMap (held_by map.old) (held_by worker.old)
        (held_by worker.new)) result }
    ensures map { held_by map.new ≡ held_by map.old }
{
    by_two_handles!(alloc, map, worker, owner => any_of(&owner))
}

fn any_of(owner: &Owner) -> Result<Owner, Outcome>
    ensures { GivesAny Owner.Map Owner.MapWorker owner.now result }
{
    let Owner::Map(map) = owner else {
        return Err(Outcome::Kind);
    };
    match map.attach() {
        Ok(member) => Ok(Owner::MapWorker(member)),
        Err(fault) => Err(Outcome::of_taking(fault)),
    }
}

/// Returns `Yes` if a close would miss the worker of a number because a handle has it, and else
/// `No`: `Map::is_attached` of `nm_set`. Errors: `Number`, `Closing`, `Closed`, `InUse`, `Kind`.
#[tactic(auto, using(crate::proofs::Holds::refused_same, crate::proofs::Holds::refused_there))]
#[unsafe(no_mangle)]
pub extern "C" fn nm_map_attached(alloc: Global, map: &mut Handle, number: u32) -> i32
    ensures told { IsCodeOf (MissesOfMap number (held_by map.old)) result }
    ensures map { held_by map.new ≡ held_by map.old }
{
    let owner = match map.claim_soon(alloc) {
        Ok(owner) => owner,
        Err(told) => return told.code(),
    };
    let outcome = is_attached(&owner, number);
    map.put(owner);
    outcome.code()
}

fn is_attached(owner: &Owner, number: u32) -> Outcome
    ensures { MissesOwned Owner.Map number owner.now result }
{
    let Owner::Map(map) = owner else {
        return Outcome::Kind;
    };
    match map.is_attached(number) {
        Ok(answer) => Outcome::of(answer),
        Err(fault) => Outcome::of_taking(fault),
    }
}

/// Ends the map when all its workers are closed: `Map::close` of `nm_set`. Returns `Done`, and the
/// handle owns the report from then on, with the values that have not come back.
///
/// Errors: `Attached`: the handle still owns the map, unchanged. `NotAll`, `NoMemory`: the handle
/// still owns the map, and all workers were gathered. `Closed`, `InUse`, `Kind`.
#[unsafe(no_mangle)]
pub extern "C" fn nm_map_close(alloc: Global, map: &mut Handle) -> i32
    ensures { IsCodeOf (EndsMap (held_by map.old) (held_by map.new)) result }
{
    let mut owner = match map.claim_soon(alloc) {
        Ok(owner) => owner,
        Err(told) => return told.code(),
    };
    let (left, outcome) = end(replace(&mut *owner, Owner::Nothing));
    *owner = left;
    map.put(owner);
    outcome.code()
}

#[tactic(auto, unfolding(crate::specs::Sets::EndsOwned))]
fn end(owner: Owner) -> (Owner, Outcome)
    ensures { EndsOwned Owner.Map LeavesMapReport owner result.0 result.1 }
{
    let map = match owner {
        Owner::Map(map) => map,
        other => return (other, Outcome::Kind),
    };
    match map.close() {
        Ok(left) => {
            let MapReport { report, values } = left;
            let values = Some(values);
            (Owner::Ended(Remains { report, values }), Outcome::Done)
        }
        Err(error) => (Owner::Map(error.set), Outcome::of_reason(error.reason)),
    }
}
