ghost use Rattle.std.specs.Prelude.{◌≡◌, length};
ghost use Rattle.nm_steps.specs.Steps.{AreFresh, IsOf};
ghost use Rattle.nm_steps.specs.Values.{HasValues};
ghost use Rattle.nm_epoch.specs.Resting.{IsResting};
ghost use Rattle.nm_walks.specs.Cleanups.{HoldsCuts};
ghost use Rattle.nm_calls.specs.Fresh.{HasDoneNothing};

use crate::{Condition, DeleteOutcome, PutOutcome, delete_if, put};
use nm_calls::{CallFault, Deletion, get};
use nm_edge::{Fit, Key, Layout, Placement};
use nm_epoch::HeldQueue;
use nm_steps::{Pass, Shared};
use nm_walks::Workspace;
use std::process::Abort;
use std::test::*;

/// A worker, with what it keeps between two calls.
#[derive(Drop)]
struct Worker {
    pass: Pass,
    workspace: Workspace,
    held: HeldQueue,
}

/// Returns the pass of a table of one worker.
#[tactic(auto, using(nm_calls::proofs::FreshWorkers::fresh_worker))]
fn only(shared: &Shared, mut passes: Vec<Pass>) -> Pass
    requires workers { shared.now.layout.workers ≡ 1 }
    requires one { length passes.items ≡ 1 }
    requires fresh { AreFresh shared.now 0 passes.items }
    ensures own { IsOf shared.now result }
    ensures new { HasDoneNothing result }
{
    let Some(pass) = passes.pop() else {
        unreachable!()
    };
    pass
}

/// Returns a worker that has done nothing.
#[tactic(auto, using(nm_calls::proofs::FreshWorkers::holds_nothing))]
fn starting(rt: &HostRuntime, shared: &Shared, pass: Pass) -> Worker
    requires own { IsOf shared.now pass }
    requires new { HasDoneNothing pass }
    ensures own { IsOf shared.now result.pass }
    ensures rests { IsResting result.pass }
    ensures kept { HoldsCuts result.pass result.held }
{
    let held = HeldQueue::new(pass.number(), rt.alloc());
    Worker {
        pass,
        workspace: Workspace::new(Placement::new(Fit::FirstFit, 6)),
        held,
    }
}

/// Puts once, in one try.
fn puts(
    rt: &impl Abort,
    shared: &Shared,
    worker: &mut Worker,
    number: u64,
    value: u64,
    condition: Condition,
) -> Result<PutOutcome, CallFault>
    requires values { HasValues shared.now }
    requires own { IsOf shared.now worker.old.pass }
    requires rests { IsResting worker.old.pass }
    requires kept { HoldsCuts worker.old.pass worker.old.held }
    ensures own { IsOf shared.now worker.new.pass }
    ensures rests { IsResting worker.new.pass }
    ensures kept { HoldsCuts worker.new.pass worker.new.held }
{
    let Some(key) = Key::new(number) else {
        panic!(rt; "a key of the map")
    };
    put(
        shared,
        &mut worker.pass,
        &mut worker.workspace,
        &mut worker.held,
        key,
        value,
        condition,
        1,
    )
}

/// Deletes once, in two tries, if the key has the value. Returns whether it was removed. Error: it has
/// this other value.
fn deletes_if(
    rt: &impl Abort,
    shared: &Shared,
    worker: &mut Worker,
    number: u64,
    expected: u64,
) -> Result<bool, u64>
    requires values { HasValues shared.now }
    requires own { IsOf shared.now worker.old.pass }
    requires rests { IsResting worker.old.pass }
    requires kept { HoldsCuts worker.old.pass worker.old.held }
    ensures own { IsOf shared.now worker.new.pass }
    ensures rests { IsResting worker.new.pass }
    ensures kept { HoldsCuts worker.new.pass worker.new.held }
{
    let Some(key) = Key::new(number) else {
        panic!(rt; "a key of the map")
    };
    match delete_if(
        shared,
        &mut worker.pass,
        &mut worker.workspace,
        &mut worker.held,
        key,
        expected,
        2,
    ) {
        Ok(DeleteOutcome::Deletion(Deletion::Done(removed))) => Ok(removed),
        Ok(DeleteOutcome::Other(found)) => Err(found),
        _ => panic!(rt; "two tries are enough"),
    }
}

/// Returns the value that the map has under a key.
fn value(rt: &impl Abort, shared: &Shared, worker: &mut Worker, number: u64) -> Option<u64>
    requires values { HasValues shared.now }
    requires own { IsOf shared.now worker.old.pass }
    requires rests { IsResting worker.old.pass }
    requires kept { HoldsCuts worker.old.pass worker.old.held }
    ensures own { IsOf shared.now worker.new.pass }
    ensures rests { IsResting worker.new.pass }
    ensures kept { HoldsCuts worker.new.pass worker.new.held }
{
    let Some(key) = Key::new(number) else {
        panic!(rt; "a key of the map")
    };
    let Ok(found) = get(shared, &mut worker.pass, key, 1) else {
        panic!(rt; "one try is enough")
    };
    found
}

/// A second put of a key returns the value of the first one, and the map has the new value. The old
/// leaf waits in the queue.
#[test]
fn a_put_returns_the_value_that_it_replaces(rt: HostRuntime) -> Result<(), Fail> {
    let (shared, passes) = Shared::with_values(rt.alloc(), Layout::new(13, 1)?)?;
    let pass = only(&shared, passes);
    let mut one = starting(&rt, &shared, pass);
    let first = puts(&rt, &shared, &mut one, 5, 50, Condition::Always);
    assert_eq!(rt; first, Ok(PutOutcome::Inserted));
    let other = puts(&rt, &shared, &mut one, 7, 70, Condition::Always);
    assert_eq!(rt; other, Ok(PutOutcome::Inserted));
    assert_eq!(rt; one.held.queue.len(), 0);
    let again = puts(&rt, &shared, &mut one, 5, 51, Condition::Always);
    assert_eq!(rt; again, Ok(PutOutcome::Replaced(50)));
    assert_eq!(rt; one.held.queue.len(), 1);
    assert_eq!(rt; value(&rt, &shared, &mut one, 5), Some(51));
    assert_eq!(rt; value(&rt, &shared, &mut one, 7), Some(70));
    Ok(())
}

/// A put with a condition changes nothing if the condition does not hold, and returns why.
#[test]
fn a_put_with_a_condition_may_change_nothing(rt: HostRuntime) -> Result<(), Fail> {
    let (shared, passes) = Shared::with_values(rt.alloc(), Layout::new(13, 1)?)?;
    let pass = only(&shared, passes);
    let mut one = starting(&rt, &shared, pass);
    let absent = puts(&rt, &shared, &mut one, 5, 50, Condition::IfThere);
    assert_eq!(rt; absent, Ok(PutOutcome::Absent));
    assert_eq!(rt; value(&rt, &shared, &mut one, 5), None);
    let first = puts(&rt, &shared, &mut one, 5, 50, Condition::Always);
    assert_eq!(rt; first, Ok(PutOutcome::Inserted));
    let other = puts(&rt, &shared, &mut one, 5, 51, Condition::IfItIs(49));
    assert_eq!(rt; other, Ok(PutOutcome::Other(50)));
    assert_eq!(rt; value(&rt, &shared, &mut one, 5), Some(50));
    let expected = puts(&rt, &shared, &mut one, 5, 51, Condition::IfItIs(50));
    assert_eq!(rt; expected, Ok(PutOutcome::Replaced(50)));
    let there = puts(&rt, &shared, &mut one, 5, 52, Condition::IfThere);
    assert_eq!(rt; there, Ok(PutOutcome::Replaced(51)));
    assert_eq!(rt; value(&rt, &shared, &mut one, 5), Some(52));
    assert_eq!(rt; one.held.queue.len(), 2);
    Ok(())
}

/// A delete that expects a value removes the key with this value alone.
#[test]
fn a_delete_removes_the_expected_value_alone(rt: HostRuntime) -> Result<(), Fail> {
    let (shared, passes) = Shared::with_values(rt.alloc(), Layout::new(13, 1)?)?;
    let pass = only(&shared, passes);
    let mut one = starting(&rt, &shared, pass);
    assert_eq!(rt; deletes_if(&rt, &shared, &mut one, 5, 50), Ok(false));
    let first = puts(&rt, &shared, &mut one, 5, 50, Condition::Always);
    assert_eq!(rt; first, Ok(PutOutcome::Inserted));
    assert_eq!(rt; deletes_if(&rt, &shared, &mut one, 5, 51), Err(50));
    assert_eq!(rt; value(&rt, &shared, &mut one, 5), Some(50));
    assert_eq!(rt; one.held.queue.len(), 0);
    assert_eq!(rt; deletes_if(&rt, &shared, &mut one, 5, 50), Ok(true));
    assert_eq!(rt; value(&rt, &shared, &mut one, 5), None);
    assert_eq!(rt; one.held.queue.len(), 2);
    Ok(())
}
