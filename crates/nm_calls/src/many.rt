//! Look-ups of several keys under one pin, whose walks take turns.
ghost use Rattle.std.specs.Prelude.{◌≡◌, ◌≢◌, ◌<◌, ◌≤◌, ◌+◌, ◌*◌, ℕ, length, map, true, false, All};
ghost use Rattle.std.specs.List.{HoldsAt};
ghost use Rattle.nm_edge.specs.Keys.{IsKey};
ghost use Rattle.nm_order.specs.Facts.Fact.{KnowsSlot};
ghost use Rattle.nm_steps.specs.Steps.{IsOf};
ghost use Rattle.nm_epoch.specs.Resting.{IsResting};
ghost use Rattle.nm_calls.specs.InTurns.{AddsLooks, GiveUp, HasBegun, IsUnderWay, key_of, most_looks, query_read, AfterHasMany};
ghost use Rattle.nm_walks.specs.Bounds.{reach};
ghost use Rattle.nm_walks.specs.Telling.{Tells, GoesOn, OnlyLooks, IsPinnedIn};

use crate::fault::CallFault;
use crate::scan_plan::What;
use nm_edge::{Key, Layout, Side};
use nm_epoch::{pin, unpin};
use nm_steps::{Pass, Shared};
use nm_walks::{Onward, look_edge, reach, read_node};

/// A key that is looked up together with others, and its answer, which is valid after the call for it
/// has succeeded.
#[derive(Clone, Copy, Debug)]
pub struct Query {
    pub key: Key,
    /// Whether the set had the key.
    pub found: bool,
    /// The value that a map had under the key, if its values were looked up and the key was found.
    /// Otherwise it means nothing.
    // Until then it is the slot of the leaf at which the walk has ended.
    pub value: u64,
    // The node that its walk reads next; 0 if there is none.
    node: u32,
}

impl Query {
    /// Makes a query of the key, which has no answer yet: `found` is false.
    pub fn new(key: Key) -> Query
        ensures { result.key ≡ key }
    {
        Query {
            key,
            found: false,
            value: 0,
            node: 0,
        }
    }
}

/// Looks up each of these keys like `has`, and writes the answers into their `found`. The walks
/// take turns, so that the loads of one go on while the others wait for theirs. Each answer is
/// right at a moment (linearization point) of this call. Two answers may have different moments.
/// The keys are unchanged. The worker must rest, and it rests afterwards.
///
/// Errors: no `found` means anything then. `Busy`, for one of these reasons:
/// - `tries` is 0; then there was no step.
/// - The pin was lost in each of `tries` tries.
/// - One of the walks had looked at as many nodes as there are, and had not ended. In a radix tree
///   this never happens.
///
/// Cost: at most 3 `tries` + 3 steps, and 3 `reach` for each key. A walk's reach is 66 nodes in a
/// radix tree, and the number of nodes otherwise. (The search of Natarajan and Mittal, section
/// 3.2.)
pub fn has_many(
    shared: &Shared,
    pass: &mut Pass,
    queries: &mut [Query],
    tries: u32,
) -> Result<(), CallFault>
    requires own { IsOf shared.now pass.old }
    requires rests { IsResting pass.old }
    ensures { AfterHasMany shared.now.layout tries queries.old queries.new pass.old
        pass.new result }
{
    if tries == 0 {
        return Err(CallFault::Busy);
    }
    pass.know_run();
    let Ok(_epoch) = pin(shared, pass, tries) else {
        return Err(CallFault::Busy);
    };
    let ended = walk_all(shared, pass, What::Keys, queries);
    pass.know_run();
    unpin(shared, pass);
    if ended { Ok(()) } else { Err(CallFault::Busy) }
}

/// Walks for each of these keys, in turns, until all walks have ended. Returns false if one of them
/// has looked at as many nodes as there are, which never happens in a radix tree.
#[inline(always)]
pub(crate) fn walk_all(shared: &Shared, pass: &mut Pass, what: What, queries: &mut [Query]) -> bool
    requires pinned { IsPinnedIn shared.now pass.old }
    requires known { Tells pass.old (KnowsSlot 2) }
    ensures looks { AddsLooks (most_looks (reach shared.now.layout) (length queries.old))
        pass.old.view.log pass.new.view.log }
    ensures under_way { All (IsUnderWay what (length pass.old.view.log) 0 pass.new) queries.new }
    ensures ended { result ≡ true → All (λ q. q.node ≡ 0) queries.new }
    ensures given_up { result ≡ false → GiveUp shared.now.layout (map key_of queries.old)
        pass.old.view.log pass.new.view.log }
    ensures keys { map key_of queries.new ≡ map key_of queries.old }
    ensures on { GoesOn pass.old pass.new }
    ensures only { OnlyLooks pass.old pass.new }
{
    // One look at the left edge of slot 2 serves all walks.
    let layout = shared.layout();
    let first = look_edge(shared, layout, pass, 2, Side::Left).slot();
    begin_each(queries, first);
    for _turn in 0..reach(layout) - 1 {
        if have_ended(queries) {
            return true;
        }
        take_turns(shared, layout, pass, what, queries);
    }
    have_ended(queries)
}

/// Begins a walk for each of these keys; the walk reads this node first.
fn begin_each(queries: &mut [Query], first: u32)
    ensures begun { All (HasBegun first) queries.new }
    ensures keys { map key_of queries.new ≡ map key_of queries.old }
{
    for index in 0..queries.len() {
        let begun = begun_at(&queries[index], first);
        queries[index] = begun;
    }
}

/// Takes each walk one node further, if it has not ended.
#[inline(always)]
fn take_turns(shared: &Shared, layout: Layout, pass: &mut Pass, what: What, queries: &mut [Query])
    requires layout { layout ≡ shared.now.layout }
    requires pinned { IsPinnedIn shared.now pass.old }
    requires under_way { All (IsUnderWay what 0 0 pass.old) queries.old }
    ensures looks { AddsLooks (3 * length queries.old) pass.old.view.log pass.new.view.log }
    ensures under_way { (from n : ℕ) → from ≤ length pass.old.view.log
        → All (IsUnderWay what from n pass.old) queries.old
        → All (IsUnderWay what from (n + 1) pass.new) queries.new }
    ensures keys { map key_of queries.new ≡ map key_of queries.old }
    ensures on { GoesOn pass.old pass.new }
    ensures only { OnlyLooks pass.old pass.new }
{
    for index in 0..queries.len() {
        take_turn(shared, layout, pass, what, &mut queries[index]);
    }
}

/// Takes a walk one node further, if it has not ended. Cost: at most three looks.
#[inline(always)]
fn take_turn(shared: &Shared, layout: Layout, pass: &mut Pass, what: What, query: &mut Query)
    requires layout { layout ≡ shared.now.layout }
    requires pinned { IsPinnedIn shared.now pass.old }
    requires under_way { IsUnderWay what 0 0 pass.old query.old }
    ensures looks { AddsLooks 3 pass.old.view.log pass.new.view.log }
    ensures under_way { (from n : ℕ) → from ≤ length pass.old.view.log
        → IsUnderWay what from n pass.old query.old
        → IsUnderWay what from (n + 1) pass.new query.new }
    ensures key { query.new.key ≡ query.old.key }
    ensures on { GoesOn pass.old pass.new }
    ensures only { OnlyLooks pass.old pass.new }
{
    if query.node == 0 {
        return;
    }
    let on = read_node(shared, layout, pass, query.node, query.key.get());
    read_so(what, query, &on);
}

/// Records in the query what its walk has read. It writes two or three words, and not the whole query,
/// because each turn of each walk calls it.
#[inline(always)]
fn read_so(what: What, query: &mut Query, on: &Onward)
    ensures query { query.new ≡ query_read what query.old on.now }
    ensures key { IsKey query.old.key }
{
    query.found = on.found == query.key.get();
    match what {
        What::Keys => {}
        What::Entries => query.value = u64::from(query.node),
    }
    query.node = on.next.slot();
}

/// Returns the query at the beginning of its walk, which reads this node first.
fn begun_at(query: &Query, first: u32) -> Query
    ensures begun { HasBegun first result }
    ensures key { result.key ≡ query.now.key }
{
    let _key = query.key.get();
    Query {
        key: query.key,
        found: false,
        value: 0,
        node: first,
    }
}

/// Returns whether no walk has a node to read.
fn have_ended(queries: &[Query]) -> bool
    ensures ended { result ≡ true → All (λ q. q.node ≡ 0) queries.now }
    ensures goes_on { result ≡ false
        → (i : ℕ) × (i < length queries.now) × HoldsAt (λ q. q.node ≢ 0) queries.now i }
{
    queries.iter().all(|query| query.node == 0)
}
