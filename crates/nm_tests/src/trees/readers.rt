//! A reader that stays pinned while others fill and drain the tree in threads of their own.
ghost use Rattle.std.specs.Prelude.{IfOk};
ghost use Rattle.nm_steps.specs.Steps.{IsOf};
ghost use Rattle.nm_tree.specs.Calls.{MayCall};

use super::threads::by_two;
use super::*;

/// Makes a tree and its three workers.
fn three_of(
    rt: &(impl Abort + AllocGlobal),
    nodes: u32,
) -> Result<(Tree, Worker, Worker, Worker), Fail>
    ensures { IfOk result (λ r. MayCall r.0 r.1 × MayCall r.0 r.2 × MayCall r.0 r.3) }
{
    let (tree, mut workers) = Tree::new(rt.alloc(), nodes, 3)?;
    let Some(third) = workers.pop() else {
        unreachable!()
    };
    let Some(second) = workers.pop() else {
        unreachable!()
    };
    let Some(first) = workers.pop() else {
        unreachable!()
    };
    Ok((tree, first, second, third))
}

/// Advances the epoch twice, and frees the ripe nodes in the queues of both; returns how many
/// nodes.
fn drain(tree: &Tree, first: &mut Worker, second: &mut Worker) -> u64
    requires first { IsOf tree.now first.old.pass }
    requires second { IsOf tree.now second.old.pass }
    ensures first { IsOf tree.now first.new.pass }
    ensures second { IsOf tree.now second.new.pass }
{
    let _ = tree.advance(first);
    let _ = tree.advance(first);
    let ours = tree.collect(first).freed;
    let theirs = tree.collect(second).freed;
    ours.saturating_add(theirs)
}

/// The nodes that two workers cut off while a third is pinned wait until it has unpinned, so that
/// at last no slot is free for a new node. Then all of them are freed.
#[test]
fn a_pinned_reader_holds_all_back(rt: HostRuntime) -> Result<(), Fail> {
    let (tree, first, second, mut reader) = three_of(&rt, 64)?;
    assert_eq!(rt; pin(&tree, &mut reader, 4), Answer::Pinned(0));
    let ((mut first, _), (mut second, _)) = by_two(&rt, &tree, first, second);
    assert_eq!(rt; tree.behind(&mut first).mask, 4);
    assert_eq!(rt; drain(&tree, &mut first, &mut second), 0);
    let waiting = first.queue_len().saturating_add(second.queue_len());
    let retired = first
        .ledger()
        .retired
        .saturating_add(second.ledger().retired);
    assert!(rt; 0 < waiting);
    assert_eq!(rt; waiting, retired);
    assert_eq!(rt; unpin(&tree, &mut reader), Answer::Left);
    assert_eq!(rt; drain(&tree, &mut first, &mut second), waiting);
    Ok(())
}
