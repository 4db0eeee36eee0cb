//! What a scan is asked: the range, the side to which it goes, and what it writes.
ghost use Rattle.std.specs.Prelude.{◌≡◌, ◌⊎◌, ◌≤◌, true, false, IfSome, length};
ghost use Rattle.nm_edge.specs.Keys.{IsKey};
ghost use Rattle.nm_calls.specs.NearKeys.{IsPast, Lies, bound};
ghost use Rattle.nm_calls.specs.MapScans.{keys_in};
ghost use Rattle.nm_calls.specs.Scans.{IsFull, end_of, most_keys};

use crate::map_scanning::MapEntry;
use nm_edge::{INFINITY_0, Key, Side};

/// The largest number of keys that one scan returns, because its worker is pinned until it ends.
pub(crate) const MOST_KEYS: usize = 1_024;

/// What a call writes: the keys that it finds, or entries of a map with these keys.
#[derive(Clone, Copy, Debug, PartialEq, Eq)]
pub(crate) enum What {
    Keys,
    Entries,
}

/// What a scan writes, the side to which it goes, the bound at which its range ends, and the largest
/// number of keys that it returns.
#[derive(Clone, Copy, Debug)]
pub(crate) struct Plan {
    pub(crate) what: What,
    pub(crate) side: Side,
    pub(crate) end: u64,
    pub(crate) room: usize,
}

/// Returns the number of places for what a scan writes.
pub(crate) fn places(what: What, out: &[u64], entries: &[MapEntry]) -> usize
    ensures { result ≡ length (keys_in what out.now entries.now) }
{
    match what {
        What::Keys => out.len(),
        What::Entries => entries.len(),
    }
}

/// Returns the plan of a scan to that side up to the bound `to`, into a slice of that length.
pub(crate) fn plan_of(what: What, side: Side, to: u64, length: usize) -> Plan
    ensures what { result.what ≡ what }
    ensures side { result.side ≡ side }
    ensures top { result.end ≤ INFINITY_0 }
    ensures end { (result.end ≤ to) × ((result.end ≡ to) ⊎ (result.end ≡ INFINITY_0)) }
    ensures room { (result.room ≤ length) × (result.room ≤ most_keys) }
    ensures limit { IsFull length result.room }
    ensures some { result.room ≡ 0 → length ≡ 0 }
{
    Plan {
        what,
        side,
        end: if to < INFINITY_0 { to } else { INFINITY_0 },
        room: if length < MOST_KEYS {
            length
        } else {
            MOST_KEYS
        },
    }
}

/// Returns the bound at which the keys from `from` on to that side begin.
pub(crate) fn start_at(side: Side, from: u64) -> u64
    requires key { IsKey from }
    ensures { result ≡ bound side from }
{
    match side {
        Side::Left => from + 1,
        Side::Right => from,
    }
}

/// Returns whether there are keys between two bounds, from the first one to that side.
pub(crate) fn is_before(side: Side, at: u64, end: u64) -> bool
    ensures yes { result ≡ true → IsPast side at end }
    ensures no { result ≡ false → Lies side end at }
{
    match side {
        Side::Left => end < at,
        Side::Right => at < end,
    }
}

/// Returns the key at which a scan continues that has come up to a bound, or `None` if this is the
/// end of its range.
pub(crate) fn key_at(plan: &Plan, at: u64) -> Option<Key>
    requires at { Lies plan.now.side at plan.now.end }
    requires top { (at ≤ INFINITY_0) × (plan.now.end ≤ INFINITY_0) }
    ensures at { end_of plan.now.side plan.now.end result ≡ at }
    ensures next { IfSome result (λ k. IsKey k × IsPast plan.now.side at plan.now.end) }
{
    if !is_before(plan.side, at, plan.end) {
        return None;
    }
    match plan.side {
        Side::Left => Key::new(at - 1),
        Side::Right => Key::new(at),
    }
}
