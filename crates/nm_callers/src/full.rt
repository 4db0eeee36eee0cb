//! The worker that holds memory back if a set has no free slot, proved from the clauses of
//! `nm_set`.
ghost use Rattle.std.specs.Prelude.{◌≡◌, IfErr};
ghost use Rattle.nm_callers.specs.Blame.{IsToBlame};

use nm_edge::Key;
use nm_set::{InsertFault, Member, Options};

/// Inserts a key, and names the worker that holds memory back if no slot is free. `Ok(None)`: the
/// call returned another error. `Err(Some(worker))`: no slot is free. This is another worker; it
/// was found announcing another epoch than the one that the member had read, both during this call.
/// `Err(None)`: no slot is free, although the epoch was advanced twice during this call, or is the
/// last one.
pub fn add_or_blame(
    member: &mut Member,
    key: Key,
    options: &Options,
) -> Result<Option<bool>, Option<u32>>
    ensures tree { member.new.tree ≡ member.old.tree }
    ensures blamed { IfErr result (IsToBlame member.old.worker member.new.worker) }
{
    match member.insert(key, options) {
        Ok(answer) => Ok(Some(answer)),
        Err(InsertFault::Full(full)) => Err(full.behind),
        Err(_) => Ok(None),
    }
}
