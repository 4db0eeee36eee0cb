//! The words of a closed table, and the keys and numbers that are read from them.
ghost use Rattle.std.specs.Prelude.{◌≡◌, length};
ghost use Rattle.nm_steps.specs.Steps.{AreFresh, IsOf};
ghost use Rattle.nm_calls.specs.Fresh.{HasDoneNothing};
ghost use Rattle.nm_tests.specs.Plays.{IsAtRest};

use super::only;
use super::workers::{Worker, deletes, flags, inserts, key, starting};
use nm_edge::{INFINITY_0, Layout};
use nm_steps::{Pass, Shared};
use nm_tree::reporting::{ReportRoom, read};
use std::process::Abort;
use std::test::Fail;

/// 135 nodes and 2 workers: 1 word for the epoch, 2 for the announcements, 540 for the nodes, and 3
/// rows of the pool.
const NODES: u32 = 135;

const WORKERS: u32 = 2;

/// The first row of the pool.
const POOL: usize = 543;

/// Joins the two passes of a table of two workers.
fn join_both(shared: &Shared, mut passes: Vec<Pass>) -> Pass
    requires two { length passes.items ≡ 2 }
    requires fresh { AreFresh shared.now 0 passes.items }
    ensures { IsOf shared.now result }
{
    let Some(second) = passes.pop() else {
        unreachable!()
    };
    let Some(first) = passes.pop() else {
        unreachable!()
    };
    shared.join(first, second)
}

#[test]
fn a_pass_for_each_worker(rt: HostRuntime) -> Result<(), Fail> {
    let layout = Layout::new(NODES, WORKERS)?;
    let (_shared, passes) = Shared::new(rt.alloc(), layout)?;
    assert_eq!(rt; passes.len(), 2);
    assert_eq!(rt; passes[0].number(), 0);
    assert_eq!(rt; passes[1].number(), 1);
    passes[0].know_run();
    passes[0].know_pooled_slots();
    Ok(())
}

#[test]
fn the_words_of_the_empty_tree(rt: HostRuntime) -> Result<(), Fail> {
    let layout = Layout::new(NODES, WORKERS)?;
    let (shared, passes) = Shared::new(rt.alloc(), layout)?;
    let heir = join_both(&shared, passes);
    assert_eq!(rt; heir.number(), 0);
    let words = shared.close(heir);
    assert_eq!(rt; words.word(0), 0);
    // slot 1: the greatest key, above slots 2 and 5
    assert_eq!(rt; words.word(3), u64::MAX);
    assert_eq!(rt; words.word(4), 8);
    assert_eq!(rt; words.word(5), 20);
    assert_eq!(rt; words.word(6), 0);
    // the pool: slots 6 to 64, 65 to 128 and 129 to 135
    assert_eq!(rt; words.word(POOL), u64::MAX - 31);
    assert_eq!(rt; words.word(POOL + 1), u64::MAX);
    assert_eq!(rt; words.word(POOL + 2), 127);
    Ok(())
}

#[test]
fn the_empty_tree_has_no_key(rt: HostRuntime) -> Result<(), Fail> {
    let layout = Layout::new(NODES, WORKERS)?;
    let (shared, passes) = Shared::new(rt.alloc(), layout)?;
    let heir = join_both(&shared, passes);
    let room = ReportRoom::new(rt.alloc(), layout)?;
    let words = shared.close(heir);
    let found = read(&words, room);
    assert!(rt; found.keys.is_empty());
    assert_eq!(rt; found.free, NODES - 5);
    assert_eq!(rt; found.reached, 0);
    Ok(())
}

/// Closes the table, and compares the keys that are read, and how many slots are free and reached.
fn reads(
    rt: &(impl Abort + AllocGlobal),
    shared: Shared,
    worker: Worker,
    layout: Layout,
    want: &[u64],
    free: u32,
    reached: u32,
) -> Result<(), Fail>
    requires own { IsOf shared worker.pass }
    requires layout { layout ≡ shared.layout }
{
    let room = ReportRoom::new(rt.alloc(), layout)?;
    let Worker { pass, .. } = worker;
    let words = shared.close(pass);
    let found = read(&words, room);
    let keys = &found.keys;
    assert_eq!(rt; keys.len(), want.len());
    for (key, number) in keys.iter().zip(want) {
        assert_eq!(rt; key.get(), *number);
    }
    assert_eq!(rt; (found.free, found.reached), (free, reached));
    Ok(())
}

/// Returns a worker that has inserted these keys into a table of its own.
fn inserted(rt: &(impl Abort + AllocGlobal), shared: &Shared, pass: Pass, keys: &[u64]) -> Worker
    requires own { IsOf shared.now pass }
    requires new { HasDoneNothing pass }
    ensures { IsAtRest shared.now result.pass result.held }
{
    let mut one = starting(rt.alloc(), shared, pass);
    for number in keys {
        inserts(rt, shared, &mut one, key(rt, *number), 1, Ok(true));
    }
    one
}

/// The left edge of slot 2 leads to slot 6, which has the key infinity and leads to slots 7 and 3.
/// Slot 7 has the key 5. Both have the generation (birth) 1.
#[test]
fn the_words_of_an_insert(rt: HostRuntime) -> Result<(), Fail> {
    let (shared, passes) = Shared::new(rt.alloc(), Layout::new(7, 1)?)?;
    let pass = only(&shared, passes);
    let Worker { pass, .. } = inserted(&rt, &shared, pass, &[5]);
    let words = shared.close(pass);
    assert_eq!(rt; words.word(7), 24);
    assert_eq!(rt; words.word(22), INFINITY_0);
    assert_eq!(rt; words.word(23), 28);
    assert_eq!(rt; words.word(24), 12);
    assert_eq!(rt; words.word(25), 1);
    assert_eq!(rt; words.word(26), 5);
    assert_eq!(rt; words.word(29), 1);
    Ok(())
}

#[test]
fn keys_are_read_in_order(rt: HostRuntime) -> Result<(), Fail> {
    let layout = Layout::new(13, 1)?;
    let (shared, passes) = Shared::new(rt.alloc(), layout)?;
    let pass = only(&shared, passes);
    let one = inserted(&rt, &shared, pass, &[20, 10, 30]);
    reads(&rt, shared, one, layout, &[10, 20, 30], 2, 6)
}

/// A leaf that is flagged and not yet cut off still has its key.
#[test]
fn a_flagged_leaf_has_its_key(rt: HostRuntime) -> Result<(), Fail> {
    let layout = Layout::new(13, 1)?;
    let (shared, passes) = Shared::new(rt.alloc(), layout)?;
    let pass = only(&shared, passes);
    let mut one = inserted(&rt, &shared, pass, &[20, 10]);
    let _leaf = flags(&rt, &shared, &mut one, key(&rt, 10));
    reads(&rt, shared, one, layout, &[10, 20], 4, 4)
}

/// Nodes that were cut off are neither reached nor free.
#[test]
fn a_cut_leaf_has_none(rt: HostRuntime) -> Result<(), Fail> {
    let layout = Layout::new(13, 1)?;
    let (shared, passes) = Shared::new(rt.alloc(), layout)?;
    let pass = only(&shared, passes);
    let mut one = inserted(&rt, &shared, pass, &[20, 10]);
    deletes(&rt, &shared, &mut one, key(&rt, 10), true);
    reads(&rt, shared, one, layout, &[20], 4, 2)
}
