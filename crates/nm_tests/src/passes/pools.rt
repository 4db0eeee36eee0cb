//! New nodes claimed in slots of the pool, and given back.
ghost use Rattle.std.specs.Prelude.{◌≡◌, ◌≤◌, length};
ghost use Rattle.nm_steps.specs.Steps.{AreFresh, IsOf};

use super::{both, claim, only};
use nm_edge::{LEAST_NODES, Layout, NodeId};
use nm_pool::give;
use nm_steps::{Pass, Shared, Words};
use std::alloc::{AllocError, Global};
use std::test::Fail;
use std::thread::{Threads, join};

/// Eight nodes: slots 6, 7 and 8 are in the pool.
const NODES: u32 = 8;

/// The number of words for eight nodes and two workers: the epoch, two announcements, four for each
/// node, and one row of the pool.
const WORDS: usize = 36;

const ROUNDS: u32 = 1000;

/// Three rows of the pool: slots 6 to 64, 65 to 128 and 129 to 135.
const MANY_NODES: u32 = 135;

/// Slots 6 to 12.
const FEW_NODES: u32 = 12;

#[test]
fn a_slot_is_put_to_use_again(rt: HostRuntime) -> Result<(), Fail> {
    let layout = Layout::new(NODES, 1)?;
    let (shared, passes) = Shared::new(rt.alloc(), layout)?;
    let mut pass = only(&shared, passes);
    let Some(first) = claim(&shared, &mut pass) else {
        panic!(rt; "every slot is in the pool")
    };
    assert_eq!(rt; first, NodeId { slot: 6, birth: 1 });
    give(&shared, &mut pass, first);
    assert_eq!(rt;
        claim(&shared, &mut pass),
        Some(NodeId { slot: 6, birth: 2 })
    );
    assert_eq!(rt;
        claim(&shared, &mut pass),
        Some(NodeId { slot: 7, birth: 1 })
    );
    assert_eq!(rt;
        claim(&shared, &mut pass),
        Some(NodeId { slot: 8, birth: 1 })
    );
    assert_eq!(rt; claim(&shared, &mut pass), None);
    Ok(())
}

#[test]
fn two_workers_claim_from_one_pool(rt: HostRuntime) -> Result<(), Fail> {
    let layout = Layout::new(LEAST_NODES, 2)?;
    let (shared, passes) = Shared::new(rt.alloc(), layout)?;
    let (mut first, mut second) = both(&shared, passes);
    let Some(sixth) = claim(&shared, &mut first) else {
        panic!(rt; "slot 6 is in the pool")
    };
    assert_eq!(rt; sixth, NodeId { slot: 6, birth: 1 });
    assert_eq!(rt;
        claim(&shared, &mut second),
        Some(NodeId { slot: 7, birth: 1 })
    );
    assert_eq!(rt; claim(&shared, &mut second), None);
    give(&shared, &mut first, sixth);
    assert_eq!(rt;
        claim(&shared, &mut second),
        Some(NodeId { slot: 6, birth: 2 })
    );
    Ok(())
}

/// Claims a node and gives it back, `rounds` times; returns how often there was one.
fn work(shared: &Shared, mut pass: Pass, rounds: u32) -> (Pass, u64)
    requires { IsOf shared.now pass }
    ensures own { IsOf shared.now result.0 }
    ensures few { result.1 ≤ rounds }
{
    let mut claimed = 0;
    for round in 0..rounds {
        if let Some(node) = claim(shared, &mut pass) {
            give(shared, &mut pass, node);
            claimed += 1;
        }
    }
    (pass, claimed)
}

fn by_two<R: Threads + Sync>(
    rt: &R,
    shared: &Shared,
    one: Pass,
    two: Pass,
) -> ((Pass, u64), (Pass, u64))
    requires one { IsOf shared.now one }
    requires two { IsOf shared.now two }
    ensures one { IsOf shared.now result.0.0 }
    ensures two { IsOf shared.now result.1.0 }
    ensures one_few { result.0.1 ≤ ROUNDS }
    ensures two_few { result.1.1 ≤ ROUNDS }
{
    join(
        rt,
        move || -> (Pass, u64)
            requires { IsOf shared.now one }
            ensures own { IsOf shared.entry.now result.0 }
            ensures few { result.1 ≤ ROUNDS }
        { work(shared, one, ROUNDS) },
        move || -> (Pass, u64)
            requires { IsOf shared.now two }
            ensures own { IsOf shared.entry.now result.0 }
            ensures few { result.1 ≤ ROUNDS }
        { work(shared, two, ROUNDS) },
    )
}

/// Returns how often the three slots were put to use.
fn births(words: &Words) -> u64
    requires { length words.now.core ≡ WORDS }
{
    let sixth = words.word(26);
    let seventh = words.word(30);
    let eighth = words.word(34);
    sixth.saturating_add(seventh).saturating_add(eighth)
}

#[test]
fn two_threads_claim_and_give(rt: HostRuntime) -> Result<(), Fail> {
    let layout = Layout::new(NODES, 2)?;
    let (shared, passes) = Shared::new(rt.alloc(), layout)?;
    let (one, two) = both(&shared, passes);
    let ((one, a), (_two, b)) = by_two(&rt, &shared, one, two);
    let words = shared.close(one);
    assert_eq!(rt; births(&words), a + b);
    // slots 6, 7 and 8 are in the pool again
    assert_eq!(rt; words.word(35), 224);
    Ok(())
}

/// The nodes that a worker claimed, in order.
type Claimed = Result<Vec<NodeId>, AllocError>;

/// Claims nodes until no slot is left.
fn claim_all(alloc: Global, shared: &Shared, mut pass: Pass) -> Claimed
    requires { IsOf shared.now pass }
{
    let mut nodes = Vec::new(alloc);
    for _slot in 0..shared.layout().nodes() {
        let Some(node) = claim(shared, &mut pass) else {
            return Ok(nodes);
        };
        nodes.push(node)?;
    }
    Ok(nodes)
}

/// Lets two workers claim nodes until no slot is left, each in a thread of its own.
fn claim_by_two<R: Threads + Sync>(
    rt: &R,
    alloc: Global,
    shared: &Shared,
    one: Pass,
    two: Pass,
) -> (Claimed, Claimed)
    requires one { IsOf shared.now one }
    requires two { IsOf shared.now two }
{
    join(
        rt,
        move || -> Claimed
            requires { IsOf shared.now one }
        { claim_all(alloc, shared, one) },
        move || -> Claimed
            requires { IsOf shared.now two }
        { claim_all(alloc, shared, two) },
    )
}

/// Returns the nodes that two workers claimed, together.
fn together(one: Claimed, two: Claimed) -> Claimed {
    let mut nodes = one?;
    for node in two? {
        nodes.push(node)?;
    }
    Ok(nodes)
}

/// Lets four workers claim nodes until no slot is left, each in a thread of its own; returns the
/// nodes, together.
fn claim_by_four<R: Threads + Sync>(
    rt: &R,
    alloc: Global,
    shared: &Shared,
    low: (Pass, Pass),
    high: (Pass, Pass),
) -> Claimed
    requires one { IsOf shared.now low.0 }
    requires two { IsOf shared.now low.1 }
    requires three { IsOf shared.now high.0 }
    requires four { IsOf shared.now high.1 }
{
    let (one, two) = low;
    let (three, four) = high;
    let (by_low, by_high) = join(
        rt,
        move || -> (Claimed, Claimed)
            requires one { IsOf shared.now one }
            requires two { IsOf shared.now two }
        { claim_by_two(rt, alloc, shared, one, two) },
        move || -> (Claimed, Claimed)
            requires three { IsOf shared.now three }
            requires four { IsOf shared.now four }
        { claim_by_two(rt, alloc, shared, three, four) },
    );
    together(together(by_low.0, by_low.1), together(by_high.0, by_high.1))
}

/// Returns the four passes of a table of four workers.
fn all_four(shared: &Shared, mut passes: Vec<Pass>) -> ((Pass, Pass), (Pass, Pass))
    requires four { length passes.items ≡ 4 }
    requires fresh { AreFresh shared.now 0 passes.items }
    ensures one { IsOf shared.now result.0.0 }
    ensures two { IsOf shared.now result.0.1 }
    ensures three { IsOf shared.now result.1.0 }
    ensures four { IsOf shared.now result.1.1 }
{
    let Some(four) = passes.pop() else {
        unreachable!()
    };
    let Some(three) = passes.pop() else {
        unreachable!()
    };
    let Some(two) = passes.pop() else {
        unreachable!()
    };
    let Some(one) = passes.pop() else {
        unreachable!()
    };
    ((one, two), (three, four))
}

/// Returns whether these nodes, sorted by slot, are one each in the slots from 6 on and below an
/// end, and each is the first node of its slot.
fn stand_in_turn(nodes: &[NodeId], end: u32) -> bool {
    nodes
        .iter()
        .zip(6..end)
        .all(|(node, slot)| *node == NodeId { slot, birth: 1 })
}

#[test]
fn two_threads_claim_every_slot_once(rt: HostRuntime) -> Result<(), Fail> {
    let layout = Layout::new(MANY_NODES, 2)?;
    let (shared, passes) = Shared::new(rt.alloc(), layout)?;
    let (one, two) = both(&shared, passes);
    let (by_one, by_two) = claim_by_two(&rt, rt.alloc(), &shared, one, two);
    let mut nodes = together(by_one, by_two)?;
    nodes.sort_unstable_by_key(|node| node.slot);
    assert_eq!(rt; nodes.len(), 130);
    assert!(rt; stand_in_turn(&nodes, MANY_NODES + 1));
    Ok(())
}

#[test]
fn four_threads_claim_every_slot_once(rt: HostRuntime) -> Result<(), Fail> {
    let layout = Layout::new(FEW_NODES, 4)?;
    let (shared, passes) = Shared::new(rt.alloc(), layout)?;
    let (low, high) = all_four(&shared, passes);
    let mut nodes = claim_by_four(&rt, rt.alloc(), &shared, low, high)?;
    nodes.sort_unstable_by_key(|node| node.slot);
    assert_eq!(rt; nodes.len(), 7);
    assert!(rt; stand_in_turn(&nodes, FEW_NODES + 1));
    Ok(())
}
