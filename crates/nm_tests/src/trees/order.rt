//! Keys in their order: the next one, the previous one, and pops of the least and the greatest.
ghost use Rattle.nm_steps.specs.Steps.{IsOf};

use super::*;

/// A call that finds a key in the order of keys.
#[derive(Clone, Copy, Debug)]
enum Seek {
    Next(u64),
    Prev(u64),
    PopFirst,
    PopLast,
}

fn key_of(rt: &impl Abort, number: u64) -> Key {
    let Some(key) = Key::new(number) else {
        panic!(rt; "{number} is no key")
    };
    key
}

/// Makes such a call, by a worker that its caller has not pinned, and returns its answer.
fn found_by(
    rt: &impl Abort,
    tree: &Tree,
    worker: &mut Worker,
    call: Seek,
    tries: u32,
) -> Result<Option<Key>, CallFault>
    requires own { IsOf tree.now worker.old.pass }
    ensures own { IsOf tree.now worker.new.pass }
{
    if worker.held().is_some() {
        panic!(rt; "the worker is held")
    }
    match call {
        Seek::Next(number) => tree.next(worker, key_of(rt, number), tries),
        Seek::Prev(number) => tree.prev(worker, key_of(rt, number), tries),
        Seek::PopFirst => tree.pop_first(worker, tries),
        Seek::PopLast => tree.pop_last(worker, tries),
    }
}

/// Makes these calls one after the other, and compares the number that each has found.
fn seek_each(
    rt: &impl Abort,
    tree: &Tree,
    worker: &mut Worker,
    tries: u32,
    calls: &[(Seek, Option<u64>)],
)
    requires own { IsOf tree.now worker.old.pass }
    ensures own { IsOf tree.now worker.new.pass }
{
    for (call, want) in calls {
        let found = match found_by(rt, tree, worker, *call, tries) {
            Ok(Some(key)) => Ok(Some(key.get())),
            Ok(None) => Ok(None),
            Err(fault) => Err(fault),
        };
        assert_eq!(rt; found, Ok(*want));
    }
}

#[test]
fn keys_are_found_and_taken_in_their_order(rt: HostRuntime) -> Result<(), Fail> {
    let (tree, mut first, mut second) = two_of(&rt, 64)?;
    let inserted = Answer::Is(true);
    let inserts = [
        (0, Call::Insert(20), inserted),
        (1, Call::Insert(10), inserted),
        (0, Call::Insert(30), inserted),
    ];
    play(&rt, &tree, &mut first, &mut second, 4, &inserts);
    let seeks = [
        (Seek::Next(11), Some(20)),
        (Seek::Next(31), None),
        (Seek::Prev(19), Some(10)),
        (Seek::Prev(20), Some(20)),
        (Seek::Prev(18_446_744_073_709_551_612), Some(30)),
        (Seek::Prev(9), None),
        (Seek::PopFirst, Some(10)),
        (Seek::Prev(19), None),
        (Seek::PopLast, Some(30)),
        (Seek::Next(21), None),
        (Seek::PopFirst, Some(20)),
        (Seek::PopFirst, None),
        (Seek::PopLast, None),
    ];
    seek_each(&rt, &tree, &mut first, 4, &seeks);
    let gone = Answer::Is(false);
    let looks = [
        (1, Call::Has(10), gone),
        (1, Call::Has(20), gone),
        (1, Call::Has(30), gone),
    ];
    play(&rt, &tree, &mut first, &mut second, 4, &looks);
    Ok(())
}

/// Inserts 0, 64, 128 and so on.
fn insert_each(rt: &impl Abort, tree: &Tree, worker: &mut Worker, keys: u64)
    requires own { IsOf tree.now worker.old.pass }
    ensures own { IsOf tree.now worker.new.pass }
{
    for number in 0..keys {
        let call = Call::Insert(number.wrapping_mul(64));
        assert_eq!(rt; make(rt, tree, worker, call, 4), Answer::Is(true));
    }
}

/// Pops the greatest key repeatedly, until there is none.
fn pop_each(rt: &impl Abort, tree: &Tree, worker: &mut Worker, keys: u64)
    requires own { IsOf tree.now worker.old.pass }
    ensures own { IsOf tree.now worker.new.pass }
{
    for taken in 0..keys {
        let greatest = keys.wrapping_sub(taken).wrapping_sub(1).wrapping_mul(64);
        seek_each(rt, tree, worker, 4, &[(Seek::PopLast, Some(greatest))]);
    }
    seek_each(rt, tree, worker, 4, &[(Seek::PopLast, None)]);
}

#[test]
fn a_radix_tree_is_emptied_from_its_greatest_key_on(rt: HostRuntime) -> Result<(), Fail> {
    let (tree, mut workers) = Tree::of(
        rt.alloc(),
        Layout::spaced(4096, 1)?.in_radix(),
        Fit::NextFit,
    )?;
    let Some(mut worker) = workers.pop() else {
        unreachable!()
    };
    insert_each(&rt, &tree, &mut worker, 500);
    pop_each(&rt, &tree, &mut worker, 500);
    Ok(())
}
