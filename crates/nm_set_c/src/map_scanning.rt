//! Scans of a range of a map that write each key with its value, by the handle of a map's worker.
#![tactic(auto, using(crate::proofs::Owners::asked_of_owner))]

ghost use Rattle.std.specs.Prelude.{◌≡◌};
ghost use Rattle.nm_edge.specs.declared.edge.Side.TheVariants.{Left, Right};
ghost use Rattle.nm_set_c.specs.Handles.{held_by};
ghost use Rattle.nm_set_c.specs.MapScanning.{TellsScanEntries};
ghost use Rattle.nm_set_c.specs.Outcomes.{IsCodeOf};
ghost use Rattle.nm_set_c.specs.Owners.{HasDone, OfMapWorker};

use crate::claiming::by_handle;
use crate::handle::Handle;
use crate::outcome::Outcome;
use crate::scanning::tell_scanned;
use nm_edge::Key;
use nm_set::{MapEntry, MapMember};
use std::alloc::Global;

/// Writes the entries of the map with a key from `from` on that is below `below` into `entries`, in
/// ascending order of the keys, and how many there are: `MapMember::scan_with_values` of `nm_set`.
/// Returns, writes and errors: as of `nm_worker_scan`.
#[unsafe(no_mangle)]
pub extern "C" fn nm_map_scan_entries(
    alloc: Global,
    worker: &mut Handle,
    from: u64,
    below: u64,
    entries: &mut [MapEntry],
    count: &mut u64,
    next: &mut u64,
    tries: u32,
) -> i32
    ensures { IsCodeOf (OfMapWorker (TellsScanEntries Right tries from below entries.old entries.new count.old count.new next.old next.new)
        ((entries.new ≡ entries.old) × (count.new ≡ count.old) × (next.new ≡ next.old))
        (held_by worker.old) (held_by worker.new)) result }
{
    by_handle!(alloc, worker, MapWorker(member) => scan(member, from, below, entries, count, next, tries))
}

fn scan(
    member: &mut MapMember,
    from: u64,
    below: u64,
    entries: &mut [MapEntry],
    count: &mut u64,
    next: &mut u64,
    tries: u32,
) -> Outcome
    ensures { HasDone (TellsScanEntries Right tries from below entries.old entries.new count.old count.new next.old next.new)
        member.old member.new result }
{
    let Some(from) = Key::new(from) else {
        return Outcome::Key;
    };
    let answer = member.scan_with_values(from, below, entries, tries);
    tell_scanned(answer, count, next)
}

/// Writes the entries of the map with a key from `from` down that is not below `least` into `entries`,
/// in descending order of the keys, and returns and writes as `nm_map_scan_entries` does:
/// `MapMember::scan_back_with_values` of `nm_set`.
#[unsafe(no_mangle)]
pub extern "C" fn nm_map_scan_entries_back(
    alloc: Global,
    worker: &mut Handle,
    from: u64,
    least: u64,
    entries: &mut [MapEntry],
    count: &mut u64,
    next: &mut u64,
    tries: u32,
) -> i32
    ensures { IsCodeOf (OfMapWorker (TellsScanEntries Left tries from least entries.old entries.new count.old count.new next.old next.new)
        ((entries.new ≡ entries.old) × (count.new ≡ count.old) × (next.new ≡ next.old))
        (held_by worker.old) (held_by worker.new)) result }
{
    by_handle!(alloc, worker, MapWorker(member) => scan_back(member, from, least, entries, count, next, tries))
}

fn scan_back(
    member: &mut MapMember,
    from: u64,
    least: u64,
    entries: &mut [MapEntry],
    count: &mut u64,
    next: &mut u64,
    tries: u32,
) -> Outcome
    ensures { HasDone (TellsScanEntries Left tries from least entries.old entries.new count.old count.new next.old next.new)
        member.old member.new result }
{
    let Some(from) = Key::new(from) else {
        return Outcome::Key;
    };
    let answer = member.scan_back_with_values(from, least, entries, tries);
    tell_scanned(answer, count, next)
}
