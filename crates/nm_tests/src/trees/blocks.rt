//! The blocks of a worker's queue.
ghost use Rattle.nm_tree.specs.Calls.{MayCall};

use super::*;

/// Inserts and deletes a key, advances the epoch twice and collects; returns whether the insert and
/// the delete returned true, and the collection freed two nodes.
fn round(tree: &Tree, worker: &mut Worker, key: Key) -> bool
    requires { MayCall tree.now worker.old }
    ensures { MayCall tree.now worker.new }
{
    let inserted = tree.insert(worker, key, 4) == Ok(true);
    let deleted = tree.delete(worker, key, 4) == Ok(true);
    let _ = tree.advance(worker);
    let _ = tree.advance(worker);
    let collected = tree.collect(worker);
    inserted && deleted && collected.freed == 2
}

/// The first delete makes room for 128 entries in four blocks. A later one needs a fifth block,
/// because a block is empty only after all of its places were used. From then on no other block is
/// taken.
#[test]
fn blocks_are_used_again(rt: HostRuntime) -> Result<(), Fail> {
    let (tree, mut first, _second) = two_of(&rt, 16)?;
    let Some(key) = Key::new(5) else {
        unreachable!()
    };
    for turn in 0..1000u32 {
        assert_eq!(rt; round(&tree, &mut first, key), true);
        let blocks = if turn == 0 { 4 } else { 5 };
        assert_eq!(rt; first.queue_blocks(), blocks);
    }
    Ok(())
}

/// The nodes that wait because of a worker that stays pinned take a block for each 32 nodes. After
/// its unpin, a collection gives back all blocks except those that 256 nodes need.
#[test]
fn blocks_go_back_behind_a_stall(rt: HostRuntime) -> Result<(), Fail> {
    let (tree, mut first, mut second) = two_of(&rt, 4096)?;
    let Some(key) = Key::new(5) else {
        unreachable!()
    };
    assert_eq!(rt; pin(&tree, &mut second, 4), Answer::Pinned(0));
    for turn in 0..1000u32 {
        assert_eq!(rt; round(&tree, &mut first, key), false, "at {turn}");
    }
    assert_eq!(rt; (first.queue_len(), first.queue_blocks()), (2000, 67));
    assert_eq!(rt; unpin(&tree, &mut second), Answer::Left);
    assert_eq!(rt; round(&tree, &mut first, key), false);
    assert_eq!(rt; (first.queue_len(), first.queue_blocks()), (0, 9));
    Ok(())
}
