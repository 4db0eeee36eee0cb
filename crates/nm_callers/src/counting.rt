//! A counter in a map, which any thread raises.
ghost use Rattle.std.specs.Prelude.{IfSome, Ok, Some};
ghost use Rattle.nm_callers.specs.Counting.{CountersEndWithTheSum, Raised};
ghost use Rattle.nm_shared.specs.SharedMaps.{SaysSharedGet};
ghost use Rattle.nm_shared.specs.Sharing.{IsCallerOf};

use nm_edge::Key;
use nm_set::{Condition, Options, PutOutcome};
use nm_shared::{MapCaller, SharedMap};

/// Raises the number under a key by one, and returns the number before. `None`: the key is absent, its
/// number is the greatest one, another call has changed it meanwhile, or a call had no answer; nothing
/// is changed. Proved: otherwise the map had the key with this number right before one step of this
/// call, and with the next number right after it.
pub fn raise_shared(
    map: &SharedMap,
    caller: MapCaller,
    key: Key,
    options: &Options,
) -> (MapCaller, Option<u64>)
    requires own { IsCallerOf map.now caller }
    ensures own { IsCallerOf map.now result.0 }
    ensures raised { IfSome result.1 (Raised caller result.0 key) }
{
    let (caller, number) = number_of(map, caller, key, options);
    let Some(number) = number else {
        return (caller, None);
    };
    let Some(next) = number.checked_add(1) else {
        return (caller, None);
    };
    let (caller, told) = map.put(caller, key, next, Condition::IfItIs(number), options);
    match told {
        Some(Ok(PutOutcome::Replaced(old))) => (caller, Some(old)),
        _ => (caller, None),
    }
}

/// Returns the number under a key. `None`: the key is absent, or the call had no answer.
fn number_of(
    map: &SharedMap,
    caller: MapCaller,
    key: Key,
    options: &Options,
) -> (MapCaller, Option<u64>)
    requires own { IsCallerOf map.now caller }
    ensures own { IsCallerOf map.now result.0 }
    ensures says { IfSome result.1
        (λ n. SaysSharedGet map.now options.now key caller result.0 (Ok (Some n))) }
{
    let (caller, told) = map.get(caller, key, options);
    match told {
        Some(Ok(Some(number))) => (caller, Some(number)),
        _ => (caller, None),
    }
}

/// Law, for the proof alone: if each call in a history of a map leaves a counter as it is or raises it
/// by one, then it ends with the number at first and one for each raise.
pub fn counters_end_with_the_sum()
    ensures { CountersEndWithTheSum }
{}
