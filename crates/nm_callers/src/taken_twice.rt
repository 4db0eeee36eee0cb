//! Two threads that delete one key, which was put twice, proved from the clauses of `nm_tree` and the
//! page alone. If they delete it only with one value, this value was put twice.
ghost use Rattle.std.specs.Prelude.{◌≡◌, ◌≢◌, true, None, IfSome};
ghost use Rattle.nm_steps.specs.Steps.{IsOf, IsSamePass};
ghost use Rattle.nm_steps.specs.Values.{HasValues};
ghost use Rattle.nm_tree.specs.Calls.{MayCall};
ghost use Rattle.nm_callers.specs.TakenTwice.{AreTwoDeletes, TookByDelete};

use crate::trees::tell_worker;
use nm_edge::Key;
use nm_tree::{RemoveOutcome, Tree, Worker};
use std::thread::{Threads, join};

/// A worker that was asked to delete a key, and the value that it took.
#[derive(Drop)]
pub struct Took {
    pub worker: Worker,
    pub value: Option<u64>,
}

/// Deletes a key by this worker.
fn take_one(tree: &Tree, mut worker: Worker, key: Key, tries: u32) -> Took
    requires may { MayCall tree.now worker }
    requires values { HasValues tree.now }
    ensures own { IsOf tree.now result.worker.pass }
    ensures same { IsSamePass worker.pass result.worker.pass }
    ensures took { IfSome result.value (TookByDelete worker.pass result.worker.pass key) }
{
    worker.know_run();
    let mut value = 0;
    let Ok(true) = tree.delete_with_value(&mut worker, key, &mut value, tries) else {
        return Took {
            worker,
            value: None,
        };
    };
    worker.know_run();
    Took {
        worker,
        value: Some(value),
    }
}

/// Deletes a key by this worker, if it has this value.
fn take_one_if(tree: &Tree, mut worker: Worker, key: Key, expected: u64, tries: u32) -> Took
    requires may { MayCall tree.now worker }
    requires values { HasValues tree.now }
    ensures own { IsOf tree.now result.worker.pass }
    ensures same { IsSamePass worker.pass result.worker.pass }
    ensures took { IfSome result.value (TookByDelete worker.pass result.worker.pass key) }
    ensures wanted { IfSome result.value (λ v. v ≡ expected) }
{
    worker.know_run();
    let Ok(RemoveOutcome::Removed) = tree.delete_if(&mut worker, key, expected, tries) else {
        return Took {
            worker,
            value: None,
        };
    };
    worker.know_run();
    Took {
        worker,
        value: Some(expected),
    }
}

/// Deletes a key by this worker, and only with the expected value if one is expected.
fn take(tree: &Tree, worker: Worker, key: Key, expected: Option<u64>, tries: u32) -> Took
    requires may { MayCall tree.now worker }
    requires values { HasValues tree.now }
    ensures own { IsOf tree.now result.worker.pass }
    ensures same { IsSamePass worker.pass result.worker.pass }
    ensures took { IfSome result.value (TookByDelete worker.pass result.worker.pass key) }
    ensures wanted { IfSome expected (λ v. IfSome result.value (λ x. x ≡ v)) }
{
    match expected {
        Some(value) => take_one_if(tree, worker, key, value, tries),
        None => take_one(tree, worker, key, tries),
    }
}

/// Deletes a key by two workers at the same time, each in a thread of its own.
fn take_at_once<R: Threads + Sync>(
    rt: &R,
    tree: &Tree,
    one: Worker,
    two: Worker,
    key: Key,
    expected: Option<u64>,
    tries: u32,
) -> (Took, Took)
    requires one { MayCall tree.now one }
    requires two { MayCall tree.now two }
    requires values { HasValues tree.now }
    ensures one { IsOf tree.now result.0.worker.pass }
    ensures two { IsOf tree.now result.1.worker.pass }
    ensures same_one { IsSamePass one.pass result.0.worker.pass }
    ensures same_two { IsSamePass two.pass result.1.worker.pass }
    ensures first { IfSome result.0.value (TookByDelete one.pass result.0.worker.pass key) }
    ensures second { IfSome result.1.value (TookByDelete two.pass result.1.worker.pass key) }
    ensures left { IfSome expected (λ v. IfSome result.0.value (λ x. x ≡ v)) }
    ensures right { IfSome expected (λ v. IfSome result.1.value (λ x. x ≡ v)) }
{
    join(
        rt,
        move || -> Took
            requires may { MayCall tree.now one }
            requires values { HasValues tree.now }
            ensures own { IsOf tree.entry.now result.worker.pass }
            ensures same { IsSamePass one.pass result.worker.pass }
            ensures took { IfSome result.value (TookByDelete one.pass result.worker.pass key) }
            ensures wanted { IfSome expected (λ v. IfSome result.value (λ x. x ≡ v)) }
        { take(tree, one, key, expected, tries) },
        move || -> Took
            requires may { MayCall tree.now two }
            requires values { HasValues tree.now }
            ensures own { IsOf tree.entry.now result.worker.pass }
            ensures same { IsSamePass two.pass result.worker.pass }
            ensures took { IfSome result.value (TookByDelete two.pass result.worker.pass key) }
            ensures wanted { IfSome expected (λ v. IfSome result.value (λ x. x ≡ v)) }
        { take(tree, two, key, expected, tries) },
    )
}

/// Deletes a key by two workers, each in a thread of its own, and lets a reader hear of both. `None`:
/// one of them did not delete it.
fn both_took<R: Threads + Sync>(
    rt: &R,
    tree: &Tree,
    one: Worker,
    two: Worker,
    reader: &mut Worker,
    key: Key,
    expected: Option<u64>,
    tries: u32,
) -> Option<(u64, u64)>
    requires one { MayCall tree.now one }
    requires two { MayCall tree.now two }
    requires reader { IsOf tree.now reader.old.pass }
    requires values { HasValues tree.now }
    requires others { one.pass.view.number ≢ two.pass.view.number }
    ensures deletes { IfSome result (λ v. AreTwoDeletes reader.new.pass one.pass.view.number
        two.pass.view.number key v.0 v.1) }
    ensures wanted { IfSome expected (λ v. IfSome result (λ x. (x.0 ≡ v) × (x.1 ≡ v))) }
{
    let (first, second) = take_at_once(rt, tree, one, two, key, expected, tries);
    let Took {
        worker: mut one,
        value: left,
    } = first;
    let Took {
        worker: mut two,
        value: right,
    } = second;
    tell_worker(tree, &mut one, reader);
    tell_worker(tree, &mut two, reader);
    reader.know_run();
    reader.know_map();
    let left = left?;
    let right = right?;
    Some((left, right))
}

/// Deletes a key by two workers, each in a thread of its own, and lets a reader hear of both. `None`:
/// one of them did not return true. Proved: otherwise the key was put twice, and each delete returns the
/// value of its own act. In each history of the map these are two deletes, with an insert of the key
/// before each of them that put this value.
pub fn take_twice<R: Threads + Sync>(
    rt: &R,
    tree: &Tree,
    one: Worker,
    two: Worker,
    reader: &mut Worker,
    key: Key,
    tries: u32,
) -> Option<(u64, u64)>
    requires one { MayCall tree.now one }
    requires two { MayCall tree.now two }
    requires reader { IsOf tree.now reader.old.pass }
    requires values { HasValues tree.now }
    requires others { one.pass.view.number ≢ two.pass.view.number }
    ensures { IfSome result (λ v. AreTwoDeletes reader.new.pass one.pass.view.number
        two.pass.view.number key v.0 v.1) }
{
    both_took(rt, tree, one, two, reader, key, None, tries)
}

/// Deletes a key by two workers, each in a thread of its own, but only if it has the expected value, and
/// lets a reader hear of both. Returns whether both have deleted it. Proved: then this value was put
/// twice under the key. In each history of the map these are two deletes, with an insert or a put of
/// the key before each of them that put this value. So if it was put once, at most one of them did.
pub fn take_twice_if<R: Threads + Sync>(
    rt: &R,
    tree: &Tree,
    one: Worker,
    two: Worker,
    reader: &mut Worker,
    key: Key,
    expected: u64,
    tries: u32,
) -> bool
    requires one { MayCall tree.now one }
    requires two { MayCall tree.now two }
    requires reader { IsOf tree.now reader.old.pass }
    requires values { HasValues tree.now }
    requires others { one.pass.view.number ≢ two.pass.view.number }
    ensures { result ≡ true → AreTwoDeletes reader.new.pass one.pass.view.number
        two.pass.view.number key expected expected }
{
    both_took(rt, tree, one, two, reader, key, Some(expected), tries).is_some()
}
