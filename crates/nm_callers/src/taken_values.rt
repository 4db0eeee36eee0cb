//! A worker of a tree with values that takes a value out, and one that gets a value under its pin, proved
//! from the clauses of `nm_tree`.
ghost use Rattle.std.specs.Prelude.{◌≡◌, None, IfSome, IsSome};
ghost use Rattle.nm_steps.specs.Steps.{IsOf};
ghost use Rattle.nm_steps.specs.Values.{HasValues};
ghost use Rattle.nm_tree.specs.Calls.{MayCall};
ghost use Rattle.nm_callers.specs.Mapping.{GotAfterPut, IsHoldingAnswer, PutsThenTakes};

use crate::trees::tell_worker;
use nm_edge::Key;
use nm_tree::{Tree, Worker};

/// Inserts a key with a value, then deletes the key, and returns the value that it had. `None`: a call
/// returned an error, or the key was in the map before, or another worker deleted it between the two
/// calls. Proved: otherwise right after the insert's link the map had the key with the value. Later,
/// right before the flag of the delete, it had the key with the value that is returned, in the very leaf
/// that the delete flagged.
pub fn put_then_take(
    tree: &Tree,
    worker: &mut Worker,
    key: Key,
    value: u64,
    tries: u32,
) -> Option<u64>
    requires may { MayCall tree.now worker.old }
    requires values { HasValues tree.now }
    ensures { IfSome result (PutsThenTakes worker.old.pass worker.new.pass key value) }
{
    let mut unused = 0;
    let Ok(true) = tree.insert_with_value(worker, key, value, &mut unused, tries) else {
        return None;
    };
    let mut taken = 0;
    let Ok(true) = tree.delete_with_value(worker, key, &mut taken, tries) else {
        return None;
    };
    Some(taken)
}

/// Pins a worker, and gets the value of a key under that pin. `None`: the pin was lost in each try, or
/// the walk gave up, or a key is pending. Proved: otherwise the worker is still pinned, and the map gave
/// this answer at a moment of this call and of that pin.
pub fn pin_then_get(tree: &Tree, worker: &mut Worker, key: Key, tries: u32) -> Option<Option<u64>>
    requires may { MayCall tree.now worker.old }
    requires values { HasValues tree.now }
    ensures { IfSome result (IsHoldingAnswer worker.old worker.new key) }
{
    let Ok(_epoch) = tree.pin(worker, tries) else {
        return None;
    };
    tree.get_pinned(worker, key).ok()
}

/// Inserts a key with a value by one worker, tells that to a reader which its caller has pinned, and
/// lets the reader get the value of the key. `None`: the insert did not return true, or the walk gave
/// up. Proved: otherwise the reader got what the map had at a moment after the insert's link, although
/// its pin may be older than the insert.
pub fn put_then_get_pinned(
    tree: &Tree,
    writer: &mut Worker,
    reader: &mut Worker,
    key: Key,
    value: u64,
    tries: u32,
) -> Option<Option<u64>>
    requires writer { MayCall tree.now writer.old }
    requires reader { IsOf tree.now reader.old.pass }
    requires values { HasValues tree.now }
    requires pinned { IsSome reader.old.held }
    ensures pinned { IsSome reader.new.held }
    ensures got { IfSome result (GotAfterPut writer.old.pass writer.new.pass reader.new.pass key
        value) }
{
    let mut unused = 0;
    let Ok(true) = tree.insert_with_value(writer, key, value, &mut unused, tries) else {
        return None;
    };
    tell_worker(tree, writer, reader);
    tree.get_pinned(reader, key).ok()
}
