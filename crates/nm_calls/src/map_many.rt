//! The values of several keys, for a worker that is pinned. Its table has a value for each slot.
ghost use Rattle.std.specs.Prelude.{◌≡◌, ℕ, true, map, All};
ghost use Rattle.nm_edge.specs.Keys.{IsKey};
ghost use Rattle.nm_order.specs.Facts.Fact.{KnowsSlot};
ghost use Rattle.nm_steps.specs.Values.{HasValues};
ghost use Rattle.nm_walks.specs.Telling.{Tells, GoesOn, OnlyLooks, IsPinnedIn};
ghost use Rattle.nm_calls.specs.InTurns.{key_of};
ghost use Rattle.nm_calls.specs.Maps.{HasReadLater};
ghost use Rattle.nm_calls.specs.ValuesInTurns.{AfterPinnedGetMany, HasAnswer, HasWalked};

use crate::fault::CallFault;
use crate::many::{Query, walk_all};
use crate::scan_plan::What;
use nm_steps::{Pass, Shared};

/// Looks up the value of each of these keys like `get_pinned`, and writes the answers into their
/// `found` and `value`. The walks take turns like those of `has_many`. Each answer was right at a
/// moment (linearization point) of this call. Two answers may have different moments. The keys are
/// unchanged. No step is made but looks.
///
/// Errors: no answer means anything then. `Busy`: one of the walks had looked at as many nodes as
/// there are, and had not ended. In a radix tree this never happens.
///
/// Cost: at most one step, 3 `reach` for each key, and a look at each value. A walk's reach is 66 nodes
/// in a radix tree, and the number of nodes otherwise. (The search of Natarajan and Mittal, section
/// 3.2.)
pub fn get_many_pinned(
    shared: &Shared,
    pass: &mut Pass,
    queries: &mut [Query],
) -> Result<(), CallFault>
    requires pinned { IsPinnedIn shared.now pass.old }
    requires values { HasValues shared.now }
    requires known { Tells pass.old (KnowsSlot 2) }
    ensures { AfterPinnedGetMany shared.now.layout queries.old queries.new pass.old pass.new result }
{
    pass.know_run();
    if !walk_all(shared, pass, What::Entries, queries) {
        return Err(CallFault::Busy);
    }
    read_values(shared, pass, queries);
    pass.know_run();
    Ok(())
}

/// Reads the value of each key that was found. Its query has the slot of the leaf with the key.
fn read_values(shared: &Shared, pass: &mut Pass, queries: &mut [Query])
    requires pinned { IsPinnedIn shared.now pass.old }
    requires values { HasValues shared.now }
    requires walked { All (HasWalked 0 pass.old) queries.old }
    ensures answers { (n : ℕ) → All (HasWalked n pass.old) queries.old
        → All (HasAnswer n pass.new) queries.new }
    ensures keys { map key_of queries.new ≡ map key_of queries.old }
    ensures log { pass.new.view.log ≡ pass.old.view.log }
    ensures on { GoesOn pass.old pass.new }
    ensures only { OnlyLooks pass.old pass.new }
{
    for index in 0..queries.len() {
        read_value(shared, pass, &mut queries[index]);
    }
}

/// Writes the value of the leaf in place of its slot, if the key was found. What was read before
/// stays so.
#[inline(always)]
fn read_value(shared: &Shared, pass: &mut Pass, query: &mut Query)
    requires pinned { IsPinnedIn shared.now pass.old }
    requires values { HasValues shared.now }
    requires walked { HasWalked 0 pass.old query.old }
    ensures answer { (n : ℕ) → HasWalked n pass.old query.old → HasAnswer n pass.new query.new }
    ensures stays { (n k v : ℕ) → IsKey k → HasReadLater n pass.old k v
        → HasReadLater n pass.new k v }
    ensures key { query.new.key ≡ query.old.key }
    ensures log { pass.new.view.log ≡ pass.old.view.log }
    ensures on { GoesOn pass.old pass.new }
    ensures only { OnlyLooks pass.old pass.new }
{
    if query.found {
        pass.know_run();
        query.value = shared.look_value(pass, query.value as u32);
    }
}
