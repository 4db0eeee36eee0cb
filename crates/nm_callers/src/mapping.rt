//! A member of a map that inserts a key with a value and gets the value of the key, proved from the
//! clauses of `nm_set` and the page alone.
ghost use Rattle.std.specs.Prelude.{◌≡◌, Some, IfSome, IsSome};
ghost use Rattle.nm_steps.specs.Steps.{PassView};
ghost use Rattle.nm_callers.specs.Mapping.{PutsThenGets};
ghost use Rattle.nm_callers.specs.Meanwhile.{NoneDeleted, NoneReplaced};

use nm_edge::Key;
use nm_set::{Map, MapMember, Options};
use std::alloc::Global;

/// A new map, its only member, and what this member has found.
#[derive(Drop)]
pub struct PutAndGot {
    pub map: Map,
    pub member: MapMember,
    /// The value under the key; `None` if the map did not have the key.
    pub found: Option<u64>,
}

/// Inserts a key with a value, and then gets the value of the key. The outer `None`: a call returned
/// an error, or the key was in the map before. Proved: otherwise right after the insert's link the map
/// had the key with the value, and the get returned what the map had at a later moment (linearization
/// point). Proved too: the get found the value that was inserted, unless a delete or a put of the key
/// took effect after all that the member had seen before. However often others put the key, the get
/// found some value, unless a delete of the key took effect (`there`).
pub fn put_then_get(
    member: &mut MapMember,
    key: Key,
    value: u64,
    options: &Options,
) -> Option<Option<u64>>
    ensures tree { member.new.tree ≡ member.old.tree }
    ensures answers { IfSome result (PutsThenGets member.old.worker.pass member.new.worker.pass key
        value) }
    ensures found { NoneDeleted member.new.worker.pass.view.layout member.old.worker.pass.view.past
        member.new.worker.pass.view.past key → NoneReplaced member.new.worker.pass.view.layout
        member.old.worker.pass.view.past member.new.worker.pass.view.past key
        → IfSome result (λ found. found ≡ Some value) }
    ensures there { NoneDeleted member.new.worker.pass.view.layout member.old.worker.pass.view.past
        member.new.worker.pass.view.past key → IfSome result (λ found. IsSome found) }
{
    let mut unused = 0;
    let Ok(true) = member.insert(key, value, &mut unused, options) else {
        return None;
    };
    let found = member.get(key, options);
    member.know_run();
    let _number = key.get();
    found.ok()
}

/// Makes a map of one worker, whose member inserts a key with a value and then gets the value of the
/// key. `None`: the map was refused, a call returned an error, or the key was there before. Proved:
/// otherwise the answers are those of `put_then_get`.
pub fn put_then_get_in_new(
    alloc: Global,
    nodes: u32,
    key: Key,
    value: u64,
    options: &Options,
) -> Option<PutAndGot>
    ensures own { IfSome result (λ m. m.member.tree ≡ m.map.tree) }
    ensures answers { IfSome result
        (λ m. (p : PassView) × PutsThenGets p m.member.worker.pass key value m.found) }
{
    let Ok((map, mut members)) = Map::with_members(alloc, nodes, 1) else {
        return None;
    };
    let mut member = members.pop()?;
    let found = put_then_get(&mut member, key, value, options)?;
    Some(PutAndGot { map, member, found })
}
