//! Handles that a call opens: with a set or a map, or with a worker that one of them gives.
ghost use Rattle.std.specs.Prelude.{◌≡◌, ◌≢◌, ◌⊎◌, None};
ghost use Rattle.nm_set_c.specs.Handles.{held_by};
ghost use Rattle.nm_set_c.specs.Handles.Hold.{Closed, Open};
ghost use Rattle.nm_set_c.specs.Sets.{Keeps};

use crate::handle::Handle;
use crate::outcome::Outcome;
use crate::owner::Owner;
use std::alloc::Global;

/// Opens a handle that was reserved for that.
pub(crate) fn open(alloc: Global, handle: &mut Handle, owner: Owner) -> Outcome
    requires used { handle.old.in_use ≢ 0 }
    requires closed { handle.old.place.held ≡ None }
    ensures { ((result ≡ Outcome.Done) × (held_by handle.new ≡ Open owner))
        ⊎ ((result ≡ Outcome.NoMemory) × (held_by handle.new ≡ Closed)) }
{
    match Box::new(alloc, owner) {
        Ok(made) => {
            handle.put(made);
            Outcome::Done
        }
        Err(_) => {
            handle.shut();
            Outcome::NoMemory
        }
    }
}

/// Opens a handle that was reserved for a worker, or leaves it closed if none was given.
pub(crate) fn keep(alloc: Global, worker: &mut Handle, given: Result<Owner, Outcome>) -> Outcome
    requires used { worker.old.in_use ≢ 0 }
    requires closed { worker.old.place.held ≡ None }
    ensures { Keeps given (held_by worker.new) result }
{
    match given {
        Ok(owner) => open(alloc, worker, owner),
        Err(why) => {
            worker.shut();
            why
        }
    }
}

/// Takes a worker by two handles, as exports do: it reserves that of the worker, claims that of the
/// set or map, asks for a worker, gives back what it claimed, and opens the worker's handle. It
/// returns from the export if the reserve or the claim is refused.
macro_rules! by_two_handles {
    ($alloc:ident, $from:ident, $worker:ident, $owner:ident => $given:expr) => {{
        match $worker.reserve($alloc) {
            Ok(()) => {}
            Err(told) => return told.code(),
        }
        let $owner = match $from.claim_soon($alloc) {
            Ok(owner) => owner,
            Err(told) => {
                $worker.shut();
                return told.code();
            }
        };
        let given = $given;
        $from.put($owner);
        $crate::opening::keep($alloc, $worker, given).code()
    }};
}

pub(crate) use by_two_handles;
