//! The keys of a range, in a set that others change, by one walk over the range. The walk goes on
//! from the stretches that it has kept for later.
//!
//! Each function is inlined into its caller, up to the calls that name a side. So a scan to either
//! side has its own code, in which no step asks for the side.
ghost use Rattle.std.specs.Prelude.{◌≡◌, ◌≢◌, ◌⊎◌, ◌<◌, ◌≤◌, ◌*◌, ◌+◌, ℕ, [], ◌∷◌, ◌++◌, true, false, All, IfOk, IfErr, IfSome, length, take};
ghost use Rattle.nm_edge.specs.Keys.{IsKey};
ghost use Rattle.nm_order.specs.Facts.Fact.{KnowsSlot};
ghost use Rattle.nm_steps.specs.Steps.{IsOf};
ghost use Rattle.nm_epoch.specs.Resting.{IsResting};
ghost use Rattle.nm_calls.specs.NearKeys.{IsPast, Lies, bound};
ghost use Rattle.nm_calls.specs.PlainWalks.{HasEndedSo};
ghost use Rattle.nm_calls.specs.MapScans.{EndsAt, IsLeafOf, leaf_in, leaf_of, keys_in};
ghost use Rattle.nm_calls.specs.Scans.{AfterScan, GiveUp, HasFoundNone, HasRouter, HasStoppedShort, IsFull, IsIn, IsRangeBy, IsStretch, IsTooFar, count_of, end_of, entry_of, exit_of, found_in, leg_looks, most_keys};
ghost use Rattle.nm_walks.specs.AddedLooks.{AddsLooks};
ghost use Rattle.nm_walks.specs.Bounds.{reach};
ghost use Rattle.nm_walks.specs.Telling.{Tells, GoesOn, OnlyLooks, IsPinnedIn};

use crate::fault::CallFault;
use crate::map_scanning::MapEntry;
use crate::scan_plan::{MOST_KEYS, Plan, What, is_before, key_at, places, plan_of, start_at};
use crate::stretches::{Stretch, Stretches, begin, entry, exit, next_stretch, walk_down};
use nm_edge::{INFINITY_0, Key, Side};
use nm_epoch::{pin, unpin};
use nm_steps::{Pass, Shared};
use nm_walks::is_null;

/// What a scan has done so far.
#[derive(Clone, Copy, Debug)]
struct Progress {
    // The bound up to which it has answered the keys of its range.
    at: u64,
    // The number of keys that it has written.
    count: usize,
    // How many of its walks may still end with no key.
    spare: u32,
    // The slot of the leaf at which its last walk has ended.
    leaf: u32,
}

/// How far a scan has come.
#[derive(Clone, Copy, Debug, PartialEq, Eq)]
pub struct Scanned {
    /// The number of keys that it has written.
    pub count: usize,
    /// The key of the range at which the next scan continues; `None` if the range is finished.
    pub next: Option<Key>,
}

/// Writes the keys of a range of the set into `out`, from `from` on to that side: in ascending
/// order those that are below `to` (`Right`), or in descending order those that are not below `to`
/// (`Left`). It returns how many it wrote, at most 1,024 and as many as `out` has room for, and the
/// key at which to continue.
///
/// The set had each key that it wrote at a moment (linearization point) of this call. For each
/// other key of the range from `from` on, up to the one at which to continue, there was a moment of
/// this call at which the set did not have it. Two keys may have different moments: the answer is
/// weakly consistent, like the iterators of Java's `ConcurrentSkipListSet`.
///
/// The call continues beyond `from` whenever `out` has room for a key. It ends early if `tries` of
/// its walks have ended with no key of the range, or if a walk after the first one had looked at as
/// many nodes as there are. Proved (`early`): a call that has two tries ends early only after a walk
/// that had found no key between two internal nodes, or after such a long walk. The worker must
/// rest, and it rests afterwards.
///
/// Errors: `out` is unchanged. `Busy`, for one of these reasons:
/// - `tries` is 0; then there was no step.
/// - The pin was lost in each of `tries` tries.
/// - The first walk had looked at as many nodes as there are, and had not ended. In a radix tree
///   this never happens.
///
/// Cost: at most 3 `tries` + 2 steps, and 4 `reach` + 1 steps for each key that it wrote and for
/// each of `tries` walks. A walk's reach is 66 nodes in a radix tree, and the number of nodes
/// otherwise. (The search of Natarajan and Mittal, section 3.2.)
#[inline(always)]
pub fn scan(
    shared: &Shared,
    pass: &mut Pass,
    side: Side,
    from: Key,
    to: u64,
    out: &mut [u64],
    tries: u32,
) -> Result<Scanned, CallFault>
    requires own { IsOf shared.now pass.old }
    requires rests { IsResting pass.old }
    ensures { AfterScan side shared.now.layout tries from to out.old out.new pass.old pass.new
        result }
{
    if tries == 0 {
        return Err(CallFault::Busy);
    }
    pass.know_run();
    let Ok(_epoch) = pin(shared, pass, tries) else {
        return Err(CallFault::Busy);
    };
    let scanned = scan_pinned(
        shared,
        pass,
        What::Keys,
        side,
        from.get(),
        to,
        out,
        &mut [],
        tries,
    );
    pass.know_run();
    unpin(shared, pass);
    scanned
}

/// Scans under a pin: walks from the root for the first stretch, and goes on from there. It writes
/// keys into `out`, or entries into `entries`, with the slot of its leaf in place of each value.
#[inline(always)]
pub(crate) fn scan_pinned(
    shared: &Shared,
    pass: &mut Pass,
    what: What,
    side: Side,
    from: u64,
    to: u64,
    out: &mut [u64],
    entries: &mut [MapEntry],
    tries: u32,
) -> Result<Scanned, CallFault>
    requires pinned { IsPinnedIn shared.now pass.old }
    requires known { Tells pass.old (KnowsSlot 2) }
    requires key { IsKey from }
    requires some { tries ≢ 0 }
    ensures looks { AddsLooks ((count_of result + tries) * leg_looks (reach shared.now.layout))
        pass.old.view.log pass.new.view.log }
    ensures told { IfOk result (λ s. IsRangeBy side (HasEndedSo pass.new) (bound side from)
        (end_of side to s.next) (take s.count (keys_in what out.new entries.new))) }
    ensures leaves { what ≡ What.Entries
        → IfOk result (λ s. All (IsLeafOf pass.new) (take s.count entries.new)) }
    ensures count { IfOk result (λ s. (s.count ≤ length (keys_in what out.new entries.new))
        × (s.count ≤ most_keys)) }
    ensures next { IfOk result (λ s. IfSome s.next (λ k. IsKey k × IsIn side (bound side from) to k
        × (length (keys_in what out.new entries.new) ≢ 0 → IsPast side from k))) }
    ensures early { IfOk result (λ s. IfSome s.next
        (λ k. IsFull (length (keys_in what out.new entries.new)) s.count ⊎ (tries ≤ 1)
        ⊎ HasStoppedShort shared.now.layout pass.new.view.log)) }
    ensures given_up { IfErr result
        (λ e. GiveUp shared.now.layout from pass.old.view.log pass.new.view.log) }
    ensures busy { IfErr result (λ e. e ≡ CallFault.Busy) }
    ensures kept { IfErr result (λ e. (out.new ≡ out.old) × (entries.new ≡ entries.old)) }
    ensures on { GoesOn pass.old pass.new }
    ensures only { OnlyLooks pass.old pass.new }
{
    let plan = plan_of(what, side, to, places(what, out, entries));
    let start = start_at(side, from);
    if !is_before(side, start, plan.end) {
        return Ok(Scanned {
            count: 0,
            next: None,
        });
    }
    let mut stretches = Stretches::new();
    let begun = begin(shared, pass, &plan, start);
    let mut leaf = 0;
    let first = walk_down(shared, pass, &plan, &mut stretches, &begun, &mut leaf);
    if !is_null(first.next) {
        return Err(CallFault::Busy);
    }
    Ok(write_all(
        shared,
        pass,
        &plan,
        &mut stretches,
        &first,
        leaf,
        out,
        entries,
        tries,
    ))
}

/// Writes the keys of a range, if the walk for its first stretch has ended at this leaf. Each turn of
/// its loop writes a key, or ends a walk with no key.
#[inline(always)]
fn write_all(
    shared: &Shared,
    pass: &mut Pass,
    plan: &Plan,
    stretches: &mut Stretches,
    first: &Stretch,
    leaf: u32,
    out: &mut [u64],
    entries: &mut [MapEntry],
    tries: u32,
) -> Scanned
    requires pinned { IsPinnedIn shared.now pass.old }
    requires known { Tells pass.old (KnowsSlot 2) }
    requires walks { IsStretch plan.now.side plan.now.end 0 pass.old first.now }
    requires ended { first.now.next.slot ≡ 0 }
    requires hit { plan.now.what ≡ What.Entries → EndsAt pass.old first.now leaf }
    requires kept { All (IsStretch plan.now.side plan.now.end 0 pass.old) stretches.old.items }
    requires top { plan.now.end ≤ INFINITY_0 }
    requires room { (plan.now.room ≤ length (keys_in plan.now.what out.old entries.old))
        × (plan.now.room ≤ most_keys) }
    requires some { tries ≢ 0 }
    ensures looks { (legs : ℕ) × (legs + 1 ≤ result.count + tries)
        × AddsLooks (legs * leg_looks (reach shared.now.layout)) pass.old.view.log
        pass.new.view.log }
    ensures told { IsRangeBy plan.now.side (HasEndedSo pass.new) (entry_of plan.now.side first.now)
        (end_of plan.now.side plan.now.end result.next)
        (take result.count (keys_in plan.now.what out.new entries.new)) }
    ensures leaves { plan.now.what ≡ What.Entries
        → All (IsLeafOf pass.new) (take result.count entries.new) }
    ensures count { (result.count ≤ length (keys_in plan.now.what out.new entries.new))
        × (result.count ≤ most_keys) }
    ensures places { length (keys_in plan.now.what out.new entries.new)
        ≡ length (keys_in plan.now.what out.old entries.old) }
    ensures next { IfSome result.next (λ k. IsKey k
        × Lies plan.now.side (entry_of plan.now.side first.now) (bound plan.now.side k)
        × IsPast plan.now.side (bound plan.now.side k) plan.now.end
        × (plan.now.room ≢ 0
        → IsPast plan.now.side (entry_of plan.now.side first.now) (bound plan.now.side k))) }
    ensures early { IfSome result.next (λ k. (result.count ≡ plan.now.room) ⊎ (tries ≤ 1)
        ⊎ HasStoppedShort shared.now.layout pass.new.view.log) }
    ensures on { GoesOn pass.old pass.new }
    ensures only { OnlyLooks pass.old pass.new }
{
    let mut stretch = *first;
    let mut progress = Progress {
        at: entry(plan.side, first),
        count: 0,
        spare: tries,
        leaf,
    };
    for _turn in 0..u64::from(tries) + MOST_KEYS as u64 {
        if !turn(
            shared,
            pass,
            plan,
            stretches,
            &mut stretch,
            &mut progress,
            out,
            entries,
        ) {
            return so_far(plan, &progress);
        }
    }
    so_far(plan, &progress)
}

/// Writes the key that the walk for a stretch has found, and walks for the next stretch. Returns
/// false if there is no room for the key, or no next stretch, or no walk left, or if that walk has
/// not ended.
#[inline(always)]
fn turn(
    shared: &Shared,
    pass: &mut Pass,
    plan: &Plan,
    stretches: &mut Stretches,
    stretch: &mut Stretch,
    progress: &mut Progress,
    out: &mut [u64],
    entries: &mut [MapEntry],
) -> bool
    requires pinned { IsPinnedIn shared.now pass.old }
    requires known { Tells pass.old (KnowsSlot 2) }
    requires walks { IsStretch plan.now.side plan.now.end 0 pass.old stretch.old }
    requires ended { stretch.old.next.slot ≡ 0 }
    requires hit { plan.now.what ≡ What.Entries → EndsAt pass.old stretch.old progress.old.leaf }
    requires at { progress.old.at ≡ entry_of plan.now.side stretch.old }
    requires kept { All (IsStretch plan.now.side plan.now.end 0 pass.old) stretches.old.items }
    requires top { plan.now.end ≤ INFINITY_0 }
    requires room { (plan.now.room ≤ length (keys_in plan.now.what out.old entries.old))
        × (progress.old.count ≤ plan.now.room) }
    requires some { progress.old.spare ≢ 0 }
    ensures looks { (legs : ℕ) × (legs + 1 + progress.old.count ≤ progress.new.count + progress.old.spare)
        × (result ≡ true → progress.new.count + progress.old.spare ≡ progress.old.count + progress.new.spare + legs)
        × AddsLooks (legs * leg_looks (reach shared.now.layout)) pass.old.view.log pass.new.view.log }
    ensures walks { result ≡ true → IsStretch plan.now.side plan.now.end 0 pass.new stretch.new
        × (stretch.new.next.slot ≡ 0) × (progress.new.at ≡ entry_of plan.now.side stretch.new)
        × (progress.new.spare ≢ 0) × IsPast plan.now.side progress.old.at progress.new.at }
    ensures kept { All (IsStretch plan.now.side plan.now.end 0 pass.new) stretches.new.items }
    ensures hit { plan.now.what ≡ What.Entries → EndsAt pass.new stretch.new progress.new.leaf }
    ensures told { (start : ℕ) → Lies plan.now.side start progress.old.at
        → IsRangeBy plan.now.side (HasEndedSo pass.old) start progress.old.at
        (take progress.old.count (keys_in plan.now.what out.old entries.old))
        → IsRangeBy plan.now.side (HasEndedSo pass.new) start progress.new.at
        (take progress.new.count (keys_in plan.now.what out.new entries.new)) }
    ensures leaves { plan.now.what ≡ What.Entries
        → All (IsLeafOf pass.old) (take progress.old.count entries.old)
        → All (IsLeafOf pass.new) (take progress.new.count entries.new) }
    ensures at { Lies plan.now.side progress.new.at plan.now.end × (progress.new.at ≤ INFINITY_0) }
    ensures further { IsPast plan.now.side progress.old.at progress.new.at
        ⊎ ((progress.new.at ≡ progress.old.at) × (plan.now.room ≡ progress.old.count)) }
    ensures count { (progress.new.count ≤ plan.now.room)
        × (length (keys_in plan.now.what out.new entries.new)
        ≡ length (keys_in plan.now.what out.old entries.old)) }
    ensures parts { result ≡ true
        → HasRouter pass.new.view.log progress.new.at × IsPast plan.now.side progress.new.at plan.now.end }
    ensures lost { IsPast plan.now.side progress.new.at plan.now.end
        → (progress.new.spare ≡ progress.old.spare) ⊎ ((progress.old.spare ≡ progress.new.spare + 1)
        × (HasRouter pass.old.view.log progress.old.at → HasFoundNone pass.new.view.log)) }
    ensures stops { result ≡ false → IsPast plan.now.side progress.new.at plan.now.end
        → (progress.new.count ≡ plan.now.room) ⊎ (progress.new.spare ≡ 0)
        ⊎ ((j : ℕ) × IsTooFar shared.now.layout j pass.new.view.log) }
    ensures wrote { result ≡ true
        → progress.new.count + progress.old.spare ≡ progress.old.count + progress.new.spare + 1 }
    ensures on { GoesOn pass.old pass.new }
    ensures only { OnlyLooks pass.old pass.new }
{
    if !write(plan, stretch, progress, out, entries) {
        return false;
    }
    if progress.spare == 0 || !is_before(plan.side, progress.at, plan.end) {
        return false;
    }
    let begun = next_stretch(shared, pass, plan, stretches, progress.at);
    let walked = walk_down(shared, pass, plan, stretches, &begun, &mut progress.leaf);
    let is_ended = is_null(walked.next);
    *stretch = walked;
    is_ended
}

/// Writes the key of the leaf at which a walk has ended, if it is one of its stretch; else one walk
/// fewer may end in this way. Returns false if there is no room for the key.
fn write(
    plan: &Plan,
    stretch: &Stretch,
    progress: &mut Progress,
    out: &mut [u64],
    entries: &mut [MapEntry],
) -> bool
    requires room { (plan.now.room ≤ length (keys_in plan.now.what out.old entries.old))
        × (progress.old.count ≤ plan.now.room) }
    requires some { progress.old.spare ≢ 0 }
    ensures wrote { result ≡ true → (progress.new.at ≡ exit_of plan.now.side stretch.now)
        × (take progress.new.count (keys_in plan.now.what out.new entries.new)
        ≡ take progress.old.count (keys_in plan.now.what out.old entries.old) ++ found_in stretch.now)
        × (progress.new.count + progress.old.spare ≡ progress.old.count + progress.new.spare + 1) }
    ensures slots { result ≡ true → plan.now.what ≡ What.Entries
        → take progress.new.count entries.new
        ≡ take progress.old.count entries.old ++ leaf_in stretch.now progress.old.leaf }
    ensures full { result ≡ false → (progress.new ≡ progress.old) × (out.new ≡ out.old)
        × (entries.new ≡ entries.old) × (plan.now.room ≡ progress.old.count) }
    ensures count { (progress.new.count ≤ plan.now.room)
        × (length (keys_in plan.now.what out.new entries.new)
        ≡ length (keys_in plan.now.what out.old entries.old)) }
    ensures leaf { progress.new.leaf ≡ progress.old.leaf }
{
    if stretch.found < stretch.low || stretch.high <= stretch.found {
        progress.spare -= 1;
        progress.at = exit(plan.side, stretch);
        return true;
    }
    if progress.count >= plan.room {
        return false;
    }
    put(plan, stretch, progress, out, entries);
    progress.count += 1;
    progress.at = exit(plan.side, stretch);
    true
}

/// Writes the key of the leaf at which a walk has ended at the next place. In an entry it writes the
/// slot of the leaf too.
fn put(
    plan: &Plan,
    stretch: &Stretch,
    progress: &Progress,
    out: &mut [u64],
    entries: &mut [MapEntry],
)
    requires room { progress.now.count < length (keys_in plan.now.what out.old entries.old) }
    ensures keys { take (progress.now.count + 1) (keys_in plan.now.what out.new entries.new)
        ≡ take progress.now.count (keys_in plan.now.what out.old entries.old)
        ++ stretch.now.found ∷ [] }
    ensures slots { plan.now.what ≡ What.Entries
        → take (progress.now.count + 1) entries.new
        ≡ take progress.now.count entries.old
        ++ leaf_of stretch.now.found progress.now.leaf ∷ [] }
    ensures places { length (keys_in plan.now.what out.new entries.new)
        ≡ length (keys_in plan.now.what out.old entries.old) }
{
    match plan.what {
        What::Keys => out[progress.count] = stretch.found,
        What::Entries => {
            entries[progress.count] = MapEntry {
                key: stretch.found,
                value: u64::from(progress.leaf),
            };
        }
    }
}

/// Returns how far a scan has come.
fn so_far(plan: &Plan, progress: &Progress) -> Scanned
    requires at { Lies plan.now.side progress.now.at plan.now.end }
    requires top { (progress.now.at ≤ INFINITY_0) × (plan.now.end ≤ INFINITY_0) }
    ensures count { result.count ≡ progress.now.count }
    ensures at { end_of plan.now.side plan.now.end result.next ≡ progress.now.at }
    ensures next { IfSome result.next (λ k. IsKey k × IsPast plan.now.side progress.now.at plan.now.end) }
{
    Scanned {
        count: progress.count,
        next: key_at(plan, progress.at),
    }
}
