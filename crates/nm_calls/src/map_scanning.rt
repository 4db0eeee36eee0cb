//! The entries of a range, in a map that others change, by one walk over the range. Its table has a
//! value for each slot.
ghost use Rattle.std.specs.Prelude.{◌≡◌, ◌≢◌, ◌⊎◌, ◌≤◌, ◌*◌, ◌+◌, ℕ, All, IfOk, IfErr, IfSome, length, take};
ghost use Rattle.std.specs.List.{AllWithin};
ghost use Rattle.nm_edge.specs.Keys.{IsKey};
ghost use Rattle.nm_order.specs.Facts.Fact.{KnowsSlot};
ghost use Rattle.nm_steps.specs.Rules.{ExtendsStores};
ghost use Rattle.nm_steps.specs.Steps.{IsOf};
ghost use Rattle.nm_steps.specs.Values.{HasValues, OnlySees};
ghost use Rattle.nm_epoch.specs.Resting.{IsResting};
ghost use Rattle.nm_calls.specs.MapScans.{HadEntries, HasReadEntry, IsLeafOf, keys_of};
ghost use Rattle.nm_calls.specs.NearKeys.{IsPast, bound};
ghost use Rattle.nm_calls.specs.PlainWalks.{HasEndedSo};
ghost use Rattle.nm_calls.specs.Scans.{AfterScan, GiveUp, HasStoppedShort, IsFull, IsIn, IsRangeBy, count_of, end_of, leg_looks, most_keys};
ghost use Rattle.nm_walks.specs.AddedLooks.{AddsLooks};
ghost use Rattle.nm_walks.specs.Bounds.{reach};
ghost use Rattle.nm_walks.specs.Telling.{Tells, GoesOn, OnlyLooks, IsPinnedIn};

use crate::fault::CallFault;
use crate::scan_plan::What;
use crate::scanning::{Scanned, scan_pinned};
use nm_edge::{Key, Side};
use nm_epoch::{pin, unpin};
use nm_steps::{Pass, Shared};

/// A key of a map with its value.
#[repr(C)]
#[derive(Clone, Copy, Debug, Default, PartialEq, Eq)]
pub struct MapEntry {
    pub key: u64,
    pub value: u64,
}

/// Writes the entries of a range of the map into `out`, like `scan` for keys. The table must have
/// values.
///
/// Proved (`after`): what `scan` says of keys is so of the keys of the entries. Proved (`finds`): for
/// each entry that it wrote there was a moment (linearization point) of this call at which the map had
/// the key with this value. Two entries may have different moments. It reads the values at the leaves
/// that its walks found, under the same pin.
///
/// Errors and cost are those of `scan`, and a look at the value of each key that it wrote.
#[inline(always)]
pub fn scan_with_values(
    shared: &Shared,
    pass: &mut Pass,
    side: Side,
    from: Key,
    to: u64,
    out: &mut [MapEntry],
    tries: u32,
) -> Result<Scanned, CallFault>
    requires own { IsOf shared.now pass.old }
    requires values { HasValues shared.now }
    requires rests { IsResting pass.old }
    ensures after { AfterScan side shared.now.layout tries from to (keys_of out.old) (keys_of out.new)
        pass.old pass.new result }
    ensures finds { HadEntries pass.old pass.new out.new result }
    ensures kept { IfErr result (λ e. out.new ≡ out.old) }
    ensures on { ExtendsStores pass.new.view.stores pass.old.view.stores }
{
    if tries == 0 {
        return Err(CallFault::Busy);
    }
    pass.know_run();
    let Ok(_epoch) = pin(shared, pass, tries) else {
        return Err(CallFault::Busy);
    };
    let scanned = scan_and_read(shared, pass, side, from.get(), to, out, tries);
    pass.know_run();
    unpin(shared, pass);
    scanned
}

/// Scans under a pin for entries, and then reads the value of each leaf that it found. The looks at
/// the values are in no log.
#[inline(always)]
fn scan_and_read(
    shared: &Shared,
    pass: &mut Pass,
    side: Side,
    from: u64,
    to: u64,
    out: &mut [MapEntry],
    tries: u32,
) -> Result<Scanned, CallFault>
    requires pinned { IsPinnedIn shared.now pass.old }
    requires values { HasValues shared.now }
    requires known { Tells pass.old (KnowsSlot 2) }
    requires key { IsKey from }
    requires some { tries ≢ 0 }
    ensures looks { AddsLooks ((count_of result + tries) * leg_looks (reach shared.now.layout))
        pass.old.view.log pass.new.view.log }
    ensures told { IfOk result (λ s. IsRangeBy side (HasEndedSo pass.new) (bound side from)
        (end_of side to s.next) (take s.count (keys_of out.new))) }
    ensures read { IfOk result (λ s. AllWithin (HasReadEntry pass.old pass.new) out.new 0 s.count) }
    ensures count { IfOk result (λ s. (s.count ≤ length (keys_of out.new)) × (s.count ≤ most_keys)) }
    ensures next { IfOk result (λ s. IfSome s.next (λ k. IsKey k × IsIn side (bound side from) to k
        × (length (keys_of out.new) ≢ 0 → IsPast side from k))) }
    ensures early { IfOk result (λ s. IfSome s.next (λ k. IsFull (length (keys_of out.new)) s.count
        ⊎ (tries ≤ 1) ⊎ HasStoppedShort shared.now.layout pass.new.view.log)) }
    ensures given_up { IfErr result
        (λ e. GiveUp shared.now.layout from pass.old.view.log pass.new.view.log) }
    ensures busy { IfErr result (λ e. e ≡ CallFault.Busy) }
    ensures kept { IfErr result (λ e. out.new ≡ out.old) }
    ensures on { GoesOn pass.old pass.new }
    ensures only { OnlyLooks pass.old pass.new }
{
    match scan_pinned(
        shared,
        pass,
        What::Entries,
        side,
        from,
        to,
        &mut [],
        out,
        tries,
    ) {
        Ok(scanned) => {
            read_values(shared, pass, out, scanned.count);
            Ok(scanned)
        }
        Err(fault) => Err(fault),
    }
}

/// Reads the values of the first `count` entries, which have the slots of their leaves.
#[inline(always)]
fn read_values(shared: &Shared, pass: &mut Pass, entries: &mut [MapEntry], count: usize)
    requires pinned { IsPinnedIn shared.now pass.old }
    requires values { HasValues shared.now }
    requires within { count ≤ length (keys_of entries.old) }
    requires leaves { All (IsLeafOf pass.old) (take count entries.old) }
    ensures read { AllWithin (HasReadEntry pass.old pass.new) entries.new 0 count }
    ensures keys { keys_of entries.new ≡ keys_of entries.old }
    ensures log { pass.new.view.log ≡ pass.old.view.log }
    ensures on { GoesOn pass.old pass.new }
    ensures only { OnlyLooks pass.old pass.new }
{
    for index in 0..count {
        read_value(shared, pass, &mut entries[index]);
    }
}

/// Writes the value of a leaf in place of its slot.
#[inline(always)]
fn read_value(shared: &Shared, pass: &mut Pass, entry: &mut MapEntry)
    requires pinned { IsPinnedIn shared.now pass.old }
    requires values { HasValues shared.now }
    requires leaf { IsLeafOf pass.old entry.old }
    ensures read { HasReadEntry pass.old pass.new entry.new }
    ensures key { entry.new.key ≡ entry.old.key }
    ensures looks { OnlySees pass.old pass.new }
    ensures on { GoesOn pass.old pass.new }
{
    pass.know_run();
    entry.value = shared.look_value(pass, entry.value as u32);
}
