//! Trees with values: each worker gets what another one has put under a key, and the values of removed
//! keys come back.
ghost use Rattle.std.specs.Prelude.{IfOk};
ghost use Rattle.nm_steps.specs.Steps.{IsOf};
ghost use Rattle.nm_steps.specs.Values.{HasValues};
ghost use Rattle.nm_tree.specs.Calls.{MayCall};

use super::endings::{both, report_of, step};
use super::*;

/// Makes a tree with values and its two workers.
fn map_of(rt: &(impl Abort + AllocGlobal), nodes: u32) -> Result<(Tree, Worker, Worker), Fail>
    ensures { IfOk result (λ r. MayCall r.0 r.1 × MayCall r.0 r.2 × HasValues r.0) }
{
    let layout = Layout::new(nodes, 2)?.in_radix();
    let (tree, mut workers) = Tree::with_values(rt.alloc(), layout, Fit::FirstFit)?;
    let Some(second) = workers.pop() else {
        unreachable!()
    };
    let Some(first) = workers.pop() else {
        unreachable!()
    };
    Ok((tree, first, second))
}

fn puts(
    rt: &impl Abort,
    tree: &Tree,
    worker: &mut Worker,
    number: u64,
    value: u64,
    want: Result<bool, CallFault>,
)
    requires own { IsOf tree.now worker.old.pass }
    ensures own { IsOf tree.now worker.new.pass }
{
    let Some(key) = Key::new(number) else {
        panic!(rt; "{number} is no key")
    };
    if worker.held().is_some() {
        panic!(rt; "the worker is pinned")
    }
    let mut unused = 0;
    let put = tree.insert_with_value(worker, key, value, &mut unused, 1);
    assert!(rt; put == want);
}

/// Inserts a key that is there, and compares the value that the call has written.
fn finds(rt: &impl Abort, tree: &Tree, worker: &mut Worker, number: u64, value: u64, want: u64)
    requires own { IsOf tree.now worker.old.pass }
    ensures own { IsOf tree.now worker.new.pass }
{
    let Some(key) = Key::new(number) else {
        panic!(rt; "{number} is no key")
    };
    if worker.held().is_some() {
        panic!(rt; "the worker is pinned")
    }
    let mut found = 0;
    let put = tree.insert_with_value(worker, key, value, &mut found, 1);
    assert!(rt; put == Ok(false));
    assert_eq!(rt; found, want);
}

fn gets(rt: &impl Abort, tree: &Tree, worker: &mut Worker, number: u64, want: Option<u64>)
    requires own { IsOf tree.now worker.old.pass }
    requires values { HasValues tree.now }
    ensures own { IsOf tree.now worker.new.pass }
{
    let Some(key) = Key::new(number) else {
        panic!(rt; "{number} is no key")
    };
    if worker.held().is_some() {
        panic!(rt; "the worker is pinned")
    }
    let found = tree.get(worker, key, 1);
    assert!(rt; found == Ok(want));
}

/// A key has the value of the insert that returned true, and an insert that returns false has written
/// this value. A plain insert puts 0 under its key.
#[test]
fn a_map_of_two_workers(rt: HostRuntime) -> Result<(), Fail> {
    let (tree, mut one, mut two) = map_of(&rt, 64)?;
    gets(&rt, &tree, &mut one, 5, None);
    puts(&rt, &tree, &mut one, 5, 50, Ok(true));
    finds(&rt, &tree, &mut two, 5, 51, 50);
    gets(&rt, &tree, &mut two, 5, Some(50));
    step(&rt, &tree, &mut two, Call::Insert(6), Answer::Is(true));
    gets(&rt, &tree, &mut one, 6, Some(0));
    finds(&rt, &tree, &mut one, 6, 61, 0);
    step(&rt, &tree, &mut two, Call::Delete(5), Answer::Is(true));
    gets(&rt, &tree, &mut one, 5, None);
    puts(&rt, &tree, &mut two, 5, 52, Ok(true));
    gets(&rt, &tree, &mut one, 5, Some(52));
    let report = report_of(&rt, tree, both(rt.alloc(), one, two)?);
    assert_eq!(rt; report.keys.len(), 2);
    Ok(())
}

fn puts_and_deletes(rt: &impl Abort, tree: &Tree, worker: &mut Worker, number: u64, value: u64)
    requires own { IsOf tree.now worker.old.pass }
    ensures own { IsOf tree.now worker.new.pass }
{
    puts(rt, tree, worker, number, value, Ok(true));
    step(rt, tree, worker, Call::Delete(number), Answer::Is(true));
}

/// Advances the epoch twice, and collects into a slice; returns how many values came back.
fn takes_back(tree: &Tree, worker: &mut Worker, out: &mut [u64]) -> usize
    requires own { IsOf tree.now worker.old.pass }
    requires values { HasValues tree.now }
    ensures own { IsOf tree.now worker.new.pass }
{
    let _ = tree.advance(worker);
    let _ = tree.advance(worker);
    tree.collect_values(worker, out).values
}

/// The values of removed keys come back once, in the order of the removals. If the slice is full, the
/// next ones wait for a later call, and no node is freed. The value of a key that is in the tree stays
/// there.
#[test]
fn values_come_back_once(rt: HostRuntime) -> Result<(), Fail> {
    let (tree, mut one, _two) = map_of(&rt, 64)?;
    puts(&rt, &tree, &mut one, 7, 70, Ok(true));
    puts_and_deletes(&rt, &tree, &mut one, 5, 50);
    puts_and_deletes(&rt, &tree, &mut one, 5, 51);
    puts_and_deletes(&rt, &tree, &mut one, 5, 52);
    let mut none: [u64; 0] = [];
    assert_eq!(rt; takes_back(&tree, &mut one, &mut none), 0);
    assert_eq!(rt; one.queue_len(), 6);
    let mut two = [0; 2];
    assert_eq!(rt; takes_back(&tree, &mut one, &mut two), 2);
    assert_eq!(rt; two, [50, 51]);
    assert_eq!(rt; one.queue_len(), 2);
    let mut four = [0; 4];
    assert_eq!(rt; takes_back(&tree, &mut one, &mut four), 1);
    assert_eq!(rt; four, [52, 0, 0, 0]);
    assert_eq!(rt; takes_back(&tree, &mut one, &mut four), 0);
    assert_eq!(rt; one.queue_len(), 0);
    gets(&rt, &tree, &mut one, 7, Some(70));
    gets(&rt, &tree, &mut one, 5, None);
    Ok(())
}

/// Returns the key from a number on, up or down, with its value; `None` if there is none.
fn beside(
    rt: &impl Abort,
    tree: &Tree,
    worker: &mut Worker,
    number: u64,
    up: bool,
) -> Option<(u64, u64)>
    requires own { IsOf tree.now worker.old.pass }
    requires values { HasValues tree.now }
    ensures own { IsOf tree.now worker.new.pass }
{
    let Some(key) = Key::new(number) else {
        panic!(rt; "{number} is no key")
    };
    if worker.held().is_some() {
        panic!(rt; "the worker is pinned")
    }
    let mut value = 0;
    let found = if up {
        tree.next_with_value(worker, key, &mut value, 2)
    } else {
        tree.prev_with_value(worker, key, &mut value, 2)
    };
    let Ok(found) = found else {
        panic!(rt; "two tries are enough")
    };
    let Some(found) = found else {
        return None;
    };
    Some((found.get(), value))
}

/// The next key and the previous one come with their values.
#[test]
fn keys_come_with_their_values(rt: HostRuntime) -> Result<(), Fail> {
    let (tree, mut one, mut two) = map_of(&rt, 64)?;
    puts(&rt, &tree, &mut one, 5, 50, Ok(true));
    puts(&rt, &tree, &mut two, 7, 70, Ok(true));
    assert!(rt; beside(&rt, &tree, &mut one, 0, true) == Some((5, 50)));
    assert!(rt; beside(&rt, &tree, &mut one, 6, true) == Some((7, 70)));
    assert!(rt; beside(&rt, &tree, &mut two, 6, false) == Some((5, 50)));
    assert!(rt; beside(&rt, &tree, &mut two, 8, true) == None);
    step(&rt, &tree, &mut one, Call::Delete(5), Answer::Is(true));
    assert!(rt; beside(&rt, &tree, &mut two, 6, false) == None);
    puts(&rt, &tree, &mut one, 5, 51, Ok(true));
    assert!(rt; beside(&rt, &tree, &mut two, 5, true) == Some((5, 51)));
    Ok(())
}

/// Deletes a key; returns its value, or `None` if it was absent.
fn takes(rt: &impl Abort, tree: &Tree, worker: &mut Worker, number: u64) -> Option<u64>
    requires own { IsOf tree.now worker.old.pass }
    ensures own { IsOf tree.now worker.new.pass }
{
    let Some(key) = Key::new(number) else {
        panic!(rt; "{number} is no key")
    };
    if worker.held().is_some() {
        panic!(rt; "the worker is pinned")
    }
    let mut value = 0;
    let Ok(deleted) = tree.delete_with_value(worker, key, &mut value, 2) else {
        panic!(rt; "two tries are enough")
    };
    deleted.then_some(value)
}

/// A delete writes the value that its key had, and that value comes back later.
#[test]
fn a_delete_writes_the_value(rt: HostRuntime) -> Result<(), Fail> {
    let (tree, mut one, mut two) = map_of(&rt, 64)?;
    puts(&rt, &tree, &mut one, 5, 50, Ok(true));
    puts(&rt, &tree, &mut two, 6, 60, Ok(true));
    assert_eq!(rt; takes(&rt, &tree, &mut one, 6), Some(60));
    assert_eq!(rt; takes(&rt, &tree, &mut one, 6), None);
    assert_eq!(rt; takes(&rt, &tree, &mut two, 5), Some(50));
    let mut four = [0; 4];
    assert_eq!(rt; takes_back(&tree, &mut one, &mut four), 1);
    assert_eq!(rt; four[0], 60);
    Ok(())
}

fn pins(rt: &impl Abort, tree: &Tree, worker: &mut Worker)
    requires own { IsOf tree.now worker.old.pass }
    ensures own { IsOf tree.now worker.new.pass }
{
    if worker.held().is_some() {
        panic!(rt; "the worker is pinned")
    }
    assert!(rt; tree.pin(worker, 1).is_ok());
}

fn gets_pinned(rt: &impl Abort, tree: &Tree, worker: &mut Worker, number: u64, want: Option<u64>)
    requires own { IsOf tree.now worker.old.pass }
    requires values { HasValues tree.now }
    ensures own { IsOf tree.now worker.new.pass }
{
    let Some(key) = Key::new(number) else {
        panic!(rt; "{number} is no key")
    };
    if worker.held().is_none() {
        panic!(rt; "the worker is not pinned")
    }
    let found = tree.get_pinned(worker, key);
    assert!(rt; found == Ok(want));
}

fn unpins(rt: &impl Abort, tree: &Tree, worker: &mut Worker)
    requires own { IsOf tree.now worker.old.pass }
    ensures own { IsOf tree.now worker.new.pass }
{
    if worker.held().is_none() {
        panic!(rt; "the worker is not pinned")
    }
    tree.unpin(worker);
}

/// A value that a pinned worker has read does not come back before that worker unpins.
#[test]
fn a_pin_keeps_a_value(rt: HostRuntime) -> Result<(), Fail> {
    let (tree, mut one, mut two) = map_of(&rt, 64)?;
    puts(&rt, &tree, &mut one, 5, 50, Ok(true));
    pins(&rt, &tree, &mut two);
    gets_pinned(&rt, &tree, &mut two, 5, Some(50));
    step(&rt, &tree, &mut one, Call::Delete(5), Answer::Is(true));
    gets_pinned(&rt, &tree, &mut two, 5, None);
    let mut four = [0; 4];
    assert_eq!(rt; takes_back(&tree, &mut one, &mut four), 0);
    unpins(&rt, &tree, &mut two);
    assert_eq!(rt; takes_back(&tree, &mut one, &mut four), 1);
    assert_eq!(rt; four[0], 50);
    Ok(())
}
