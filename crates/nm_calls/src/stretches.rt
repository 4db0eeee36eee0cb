//! Walks for many keys of a range.
//!
//! Such a walk goes on to the side of the first ones at each node at which they part, and keeps the
//! others for later. So the walk for the next key begins at the last of these nodes, and not at the
//! root.
//!
//! Each function is inlined into its caller, up to the calls that name a side. So a scan to either
//! side has its own code, in which no step asks for the side.
ghost use Rattle.std.specs.Prelude.{◌≡◌, ◌≢◌, ◌⊎◌, ◌<◌, ◌≤◌, ◌*◌, ◌+◌, ℕ, [], ◌∷◌, ◌++◌, true, All};
ghost use Rattle.nm_order.specs.Facts.Fact.{KnowsSlot};
ghost use Rattle.nm_calls.specs.NearKeys.{IsPast};
ghost use Rattle.nm_calls.specs.MapScans.{EndsAt};
ghost use Rattle.nm_calls.specs.Scans.{Chooses, IsStretch, IsTooFar, entry_of, exit_of, stretch_over};
ghost use Rattle.nm_walks.specs.AddedLooks.{AddsLooks};
ghost use Rattle.nm_walks.specs.Bounds.{reach};
ghost use Rattle.nm_walks.specs.Telling.{Tells, GoesOn, OnlyLooks, IsPinnedIn};

use crate::scan_plan::{Plan, What, is_before};
use arrayvec::ArrayVec;
use nm_edge::{Edge, INFINITY_0, Layout, Side};
use nm_steps::{Pass, Shared};
use nm_walks::{is_null, look_edge, reach, read_node};

/// The number of stretches that a scan can keep for later. In a radix tree it needs no more.
const MOST_STRETCHES: usize = 64;

/// A walk for each key from `low` on that is below `high`. They turn to the same side at each
/// internal node that the walk read.
#[derive(Clone, Copy, Debug, PartialEq, Eq)]
pub(crate) struct Stretch {
    pub(crate) low: u64,
    pub(crate) high: u64,
    // The edge to the node that it reads next; null if there is none.
    pub(crate) next: Edge,
    // The key of the node that it read last.
    pub(crate) found: u64,
}

impl Default for Stretch {
    fn default() -> Self {
        Stretch {
            low: 0,
            high: 0,
            next: Edge::to(0),
            found: 0,
        }
    }
}

/// The stretches that a scan has kept for later, the next one last.
pub(crate) type Stretches = ArrayVec<Stretch, MOST_STRETCHES>;

/// Returns the bound at which a scan to that side enters a stretch.
pub(crate) fn entry(side: Side, stretch: &Stretch) -> u64
    ensures { result ≡ entry_of side stretch.now }
{
    match side {
        Side::Left => stretch.high,
        Side::Right => stretch.low,
    }
}

/// Returns the bound at which a scan to that side leaves a stretch.
pub(crate) fn exit(side: Side, stretch: &Stretch) -> u64
    ensures { result ≡ exit_of side stretch.now }
{
    match side {
        Side::Left => stretch.low,
        Side::Right => stretch.high,
    }
}

/// Begins a walk from slot 2 for the keys from a bound on to the end of the range. Cost: one look.
#[inline(always)]
pub(crate) fn begin(shared: &Shared, pass: &mut Pass, plan: &Plan, at: u64) -> Stretch
    requires pinned { IsPinnedIn shared.now pass.old }
    requires known { Tells pass.old (KnowsSlot 2) }
    requires at { IsPast plan.now.side at plan.now.end }
    requires top { (at ≤ INFINITY_0) × (plan.now.end ≤ INFINITY_0) }
    ensures looks { AddsLooks 1 pass.old.view.log pass.new.view.log }
    ensures walks { IsStretch plan.now.side plan.now.end 0 pass.new result }
    ensures entry { entry_of plan.now.side result ≡ at }
    ensures some { result.next.slot ≢ 0 }
    ensures on { GoesOn pass.old pass.new }
    ensures only { OnlyLooks pass.old pass.new }
{
    let layout = shared.layout();
    let first = look_edge(shared, layout, pass, 2, Side::Left);
    stretch_to(plan, at, first)
}

/// Returns the stretch of the keys from a bound on to the end of the range, which reads the node at
/// this edge first.
fn stretch_to(plan: &Plan, at: u64, first: Edge) -> Stretch
    ensures { result ≡ stretch_over plan.now.side at plan.now.end first }
{
    match plan.side {
        Side::Left => Stretch {
            low: plan.end,
            high: at,
            next: first,
            found: 0,
        },
        Side::Right => Stretch {
            low: at,
            high: plan.end,
            next: first,
            found: 0,
        },
    }
}

/// Walks for the first keys of a stretch to the end of their walk, and keeps the other keys for
/// later. It writes the slot of the leaf at the end to `leaf`. It stops if the walk has looked at as
/// many nodes as there are, which never happens in a radix tree.
#[inline(always)]
pub(crate) fn walk_down(
    shared: &Shared,
    pass: &mut Pass,
    plan: &Plan,
    stretches: &mut Stretches,
    begun: &Stretch,
    leaf: &mut u32,
) -> Stretch
    requires pinned { IsPinnedIn shared.now pass.old }
    requires walks { IsStretch plan.now.side plan.now.end 0 pass.old begun.now }
    requires some { plan.now.what ≡ What.Entries → begun.now.next.slot ≢ 0 }
    requires kept { All (IsStretch plan.now.side plan.now.end 0 pass.old) stretches.old.items }
    ensures looks { AddsLooks (reach shared.now.layout * 4) pass.old.view.log pass.new.view.log }
    ensures walks { IsStretch plan.now.side plan.now.end 0 pass.new result }
    ensures kept { All (IsStretch plan.now.side plan.now.end 0 pass.new) stretches.new.items }
    ensures entry { entry_of plan.now.side result ≡ entry_of plan.now.side begun.now }
    ensures hit { plan.now.what ≡ What.Entries → EndsAt pass.new result leaf.new }
    ensures long { result.next.slot ≢ 0 → (k : ℕ) → result.low ≤ k → k < result.high
        → IsTooFar shared.now.layout k pass.new.view.log }
    ensures on { GoesOn pass.old pass.new }
    ensures only { OnlyLooks pass.old pass.new }
{
    let layout = shared.layout();
    let mut stretch = *begun;
    for _node in 0..reach(layout) - 1 {
        if is_null(stretch.next) {
            return stretch;
        }
        *leaf = stretch.next.slot();
        let on = read_on(shared, layout, pass, plan.side, stretches, &stretch);
        stretch = on;
    }
    stretch
}

/// Takes the walk for the first keys of a stretch one node further. If they part there from the
/// others, it keeps the others for later. Cost: at most four looks.
#[inline(always)]
fn read_on(
    shared: &Shared,
    layout: Layout,
    pass: &mut Pass,
    side: Side,
    stretches: &mut Stretches,
    stretch: &Stretch,
) -> Stretch
    requires layout { layout ≡ shared.now.layout }
    requires pinned { IsPinnedIn shared.now pass.old }
    requires some { stretch.now.next.slot ≢ 0 }
    requires known { Tells pass.old (KnowsSlot stretch.now.next.slot) }
    ensures looks { AddsLooks 4 pass.old.view.log pass.new.view.log }
    ensures walks { (end n : ℕ) → IsStretch side end n pass.old stretch.now
        → All (IsStretch side end 0 pass.old) stretches.old.items
        → IsStretch side end (n + 1) pass.new result
        × All (IsStretch side end 0 pass.new) stretches.new.items }
    ensures entry { entry_of side result ≡ entry_of side stretch.now }
    ensures hit { (end n : ℕ) → IsStretch side end n pass.old stretch.now
        → EndsAt pass.new result stretch.now.next.slot }
    ensures on { GoesOn pass.old pass.new }
    ensures only { OnlyLooks pass.old pass.new }
{
    let node = stretch.next.slot();
    let on = read_node(shared, layout, pass, node, stretch.low);
    if is_null(on.next) || on.found <= stretch.low || stretch.high <= on.found {
        return Stretch {
            low: stretch.low,
            high: stretch.high,
            next: on.next,
            found: on.found,
        };
    }
    let right = look_edge(shared, layout, pass, node, Side::Right);
    let lower = Stretch {
        low: stretch.low,
        high: on.found,
        next: on.next,
        found: on.found,
    };
    let upper = Stretch {
        low: on.found,
        high: stretch.high,
        next: right,
        found: on.found,
    };
    choose(side, stretches, &lower, &upper)
}

/// Returns the one of two stretches with which a scan to that side goes on, and keeps the other one
/// for later.
fn choose(side: Side, stretches: &mut Stretches, lower: &Stretch, upper: &Stretch) -> Stretch
    ensures { Chooses side stretches.old.items stretches.new.items lower.now upper.now result }
{
    match side {
        Side::Left => {
            keep(stretches, lower);
            *upper
        }
        Side::Right => {
            keep(stretches, upper);
            *lower
        }
    }
}

/// Keeps a stretch for later. If there is no room, it forgets all others; then the scan walks from
/// the root for their keys.
fn keep(stretches: &mut Stretches, stretch: &Stretch)
    ensures { (stretches.new.items ≡ stretches.old.items ++ stretch.now ∷ [])
        ⊎ (stretches.new.items ≡ stretch.now ∷ []) }
{
    if stretches.len() == MOST_STRETCHES {
        stretches.clear();
    }
    stretches.push(*stretch);
}

/// Returns the stretch that begins at a bound: the one that was kept last, or one that begins a walk
/// from slot 2. For an entry its walk has a node to read. Cost: at most one look.
#[inline(always)]
pub(crate) fn next_stretch(
    shared: &Shared,
    pass: &mut Pass,
    plan: &Plan,
    stretches: &mut Stretches,
    at: u64,
) -> Stretch
    requires pinned { IsPinnedIn shared.now pass.old }
    requires known { Tells pass.old (KnowsSlot 2) }
    requires at { IsPast plan.now.side at plan.now.end }
    requires top { (at ≤ INFINITY_0) × (plan.now.end ≤ INFINITY_0) }
    requires kept { All (IsStretch plan.now.side plan.now.end 0 pass.old) stretches.old.items }
    ensures looks { AddsLooks 1 pass.old.view.log pass.new.view.log }
    ensures walks { IsStretch plan.now.side plan.now.end 0 pass.new result }
    ensures kept { All (IsStretch plan.now.side plan.now.end 0 pass.new) stretches.new.items }
    ensures entry { entry_of plan.now.side result ≡ at }
    ensures some { plan.now.what ≡ What.Entries → result.next.slot ≢ 0 }
    ensures on { GoesOn pass.old pass.new }
    ensures only { OnlyLooks pass.old pass.new }
{
    if let Some(kept) = stretches.pop() {
        if entry(plan.side, &kept) == at && leads_on(plan, &kept) {
            return kept;
        }
    }
    stretches.clear();
    begin(shared, pass, plan, at)
}

/// Returns whether a scan may go on with this stretch. The leaf of a walk that has ended is not kept,
/// and a scan for entries needs it.
fn leads_on(plan: &Plan, kept: &Stretch) -> bool
    ensures { result ≡ true → plan.now.what ≡ What.Entries → kept.now.next.slot ≢ 0 }
{
    match plan.what {
        What::Keys => true,
        What::Entries => !is_null(kept.next),
    }
}
