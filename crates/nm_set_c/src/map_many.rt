//! Look-ups of the values of several keys together, by the handle of a map's worker.
#![tactic(auto, using(crate::proofs::Owners::asked_of_owner))]

ghost use Rattle.std.specs.Prelude.{◌≡◌};
ghost use Rattle.nm_set.specs.Maps.{SaysPinnedGetMany};
ghost use Rattle.nm_set_c.specs.Handles.{held_by};
ghost use Rattle.nm_set_c.specs.Lookups.{TellsGetManyPinned, map_lookup_of, map_key_looked_up};
ghost use Rattle.nm_set_c.specs.Outcomes.{IsCodeOf};
ghost use Rattle.nm_set_c.specs.Owners.{HasDone, OfMapWorker};

use crate::claiming::by_handle;
use crate::handle::Handle;
use crate::many::{Asking, queries_of, write_answers};
use crate::outcome::Outcome;
use nm_set::{MapMember, PinnedGetFault, Query};
use std::alloc::Global;

/// A key whose value is looked up beside others, and the value that the map has under it.
#[repr(C)]
#[derive(Clone, Copy, Debug)]
pub struct MapLookup {
    /// The key, 0 to 2^64 - 4.
    pub key: u64,
    /// 1 if the map had the key, else 0.
    pub found: u64,
    /// The value under the key, or 0 if the map did not have the key.
    pub value: u64,
}

impl Asking for MapLookup {
    ghost number = { map_key_looked_up };

    ghost written = { map_lookup_of };

    fn number(&self) -> u64 {
        self.key
    }

    fn answered(query: &Query) -> MapLookup {
        MapLookup {
            key: query.key.get(),
            found: u64::from(query.found),
            value: if query.found { query.value } else { 0 },
        }
    }
}

/// Looks up the value of each of these keys, under the caller's pin: `MapMember::get_many_pinned` of
/// `nm_set`. Returns `Done`, and writes each `found` and `value`. Errors: `Key`: one of the numbers is
/// no key. `NotPinned`, `Busy`, `NoMemory`, `Closed`, `InUse`, `Kind`.
#[unsafe(no_mangle)]
pub extern "C" fn nm_map_get_many_pinned(
    alloc: Global,
    worker: &mut Handle,
    lookups: &mut [MapLookup],
) -> i32
    ensures { IsCodeOf (OfMapWorker (TellsGetManyPinned lookups.old lookups.new)
        (lookups.new ≡ lookups.old) (held_by worker.old) (held_by worker.new)) result }
{
    by_handle!(alloc, worker, MapWorker(member) => get_many_pinned(alloc, member, lookups))
}

fn get_many_pinned(alloc: Global, member: &mut MapMember, lookups: &mut [MapLookup]) -> Outcome
    ensures { HasDone (TellsGetManyPinned lookups.old lookups.new) member.old member.new result }
{
    let mut queries = match queries_of(alloc, lookups) {
        Ok(queries) => queries,
        Err(told) => return told,
    };
    match ask(member, &mut queries) {
        Ok(()) => {
            write_answers(lookups, &queries);
            Outcome::Done
        }
        Err(PinnedGetFault::NotPinned) => Outcome::NotPinned,
        Err(PinnedGetFault::Busy) => Outcome::Busy,
    }
}

/// Asks the worker for all of these. In a function of its own the walk has all registers.
#[inline(never)]
fn ask(member: &mut MapMember, queries: &mut Vec<Query>) -> Result<(), PinnedGetFault>
    ensures tree { member.new.tree ≡ member.old.tree }
    ensures says { SaysPinnedGetMany member.old.tree.layout queries.old.items queries.new.items
        member.old.worker member.new.worker result }
{
    member.get_many_pinned(queries.as_mut_slice())
}
