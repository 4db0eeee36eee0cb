//! A worker of a tree with values that inserts a key and gets the value of a key, proved from the
//! clauses of `nm_tree` and the page alone.
ghost use Rattle.std.specs.Prelude.{◌≡◌, ◌≤◌, None, Some, IfSome, IsErrOf};
ghost use Rattle.nm_progress.specs.Alone.{IsAlone};
ghost use Rattle.nm_steps.specs.Steps.{IsOf};
ghost use Rattle.nm_steps.specs.Values.{HasValues};
ghost use Rattle.nm_tree.specs.Calls.{MayCall};
ghost use Rattle.nm_callers.specs.Mapping.{AreOfOneMap, PutsThenGets};
ghost use Rattle.nm_callers.specs.Meanwhile.{NoneDeleted, NoneReplaced};

use crate::trees::tell_worker;
use nm_edge::Key;
use nm_tree::{CallFault, Tree, Worker};

/// Inserts a key with a value, and then gets the value of the key. The outer `None`: a call
/// returned an error, or the key was in the map before. Proved: otherwise right after the insert's
/// link the map had the key with the value, and the get returned what the map had at a later moment
/// (linearization point). Proved too: the get found the value that was inserted, unless a delete or a
/// put of the key took effect after all that the worker had seen before. And if the get found a value,
/// each history of the turns is one of a plain map. The insert is one of its acts, which puts the
/// value that was inserted, and at the moment of the get this map has the value that was found.
pub fn insert_then_get(
    tree: &Tree,
    worker: &mut Worker,
    key: Key,
    value: u64,
    tries: u32,
) -> Option<Option<u64>>
    requires own { IsOf tree.now worker.old.pass }
    requires free { worker.old.held ≡ None }
    requires values { HasValues tree.now }
    ensures answers { IfSome result (PutsThenGets worker.old.pass worker.new.pass key value) }
    ensures found { NoneDeleted worker.new.pass.view.layout worker.old.pass.view.past
        worker.new.pass.view.past key → NoneReplaced worker.new.pass.view.layout
        worker.old.pass.view.past worker.new.pass.view.past key
        → IfSome result (λ found. found ≡ Some value) }
    ensures one_map { IfSome result (λ found. IfSome found
        (AreOfOneMap worker.new.pass.view.layout worker.old.pass.view.past
        worker.new.pass.view.past worker.new.pass.view.number key value)) }
{
    let mut unused = 0;
    let Ok(true) = tree.insert_with_value(worker, key, value, &mut unused, tries) else {
        return None;
    };
    let found = tree.get(worker, key, tries);
    worker.know_run();
    let _number = key.get();
    found.ok()
}

/// Inserts a key with a value by one worker, and then gets the value of the key by another one, which
/// has heard of the insert. The outer `None`: a call returned an error, or the key was in the map
/// before. Proved: the get found the value that was inserted, unless a delete or a put of the key took
/// effect after all that the first worker had seen before. Proved too: if the get found a value, each history
/// of the turns is one of a plain map, which both workers share. The insert is one of its acts, and at
/// the moment of the get this map has the value that was found.
pub fn insert_then_get_told(
    tree: &Tree,
    one: &mut Worker,
    two: &mut Worker,
    key: Key,
    value: u64,
    tries: u32,
) -> Option<Option<u64>>
    requires one { IsOf tree.now one.old.pass }
    requires two { IsOf tree.now two.old.pass }
    requires free { one.old.held ≡ None }
    requires free_two { two.old.held ≡ None }
    requires values { HasValues tree.now }
    ensures found { NoneDeleted two.new.pass.view.layout one.old.pass.view.past
        two.new.pass.view.past key → NoneReplaced two.new.pass.view.layout one.old.pass.view.past
        two.new.pass.view.past key → IfSome result (λ found. found ≡ Some value) }
    ensures one_map { IfSome result (λ found. IfSome found
        (AreOfOneMap two.new.pass.view.layout one.old.pass.view.past two.new.pass.view.past
        one.new.pass.view.number key value)) }
{
    let mut unused = 0;
    let Ok(true) = tree.insert_with_value(one, key, value, &mut unused, tries) else {
        return None;
    };
    one.know_run();
    tell_worker(tree, one, two);
    let found = tree.get(two, key, tries);
    two.know_run();
    let _number = key.get();
    found.ok()
}

/// Gets the value of a key with at least one try. Proved: it is not busy if no other worker makes a
/// transition (turn) during the call.
pub fn get_alone(
    tree: &Tree,
    worker: &mut Worker,
    key: Key,
    tries: u32,
) -> Result<Option<u64>, CallFault>
    requires may { MayCall tree.now worker.old }
    requires values { HasValues tree.now }
    requires some { 1 ≤ tries }
    ensures { IsAlone worker.old.pass worker.new.pass → IsErrOf result CallFault.Busy → ⊥ }
{
    tree.get(worker, key, tries)
}
