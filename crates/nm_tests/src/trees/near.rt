//! Trees whose workers claim by next fit.
ghost use Rattle.std.specs.Prelude.{IfOk};
ghost use Rattle.nm_tree.specs.Calls.{MayCall};

use super::endings::{both, each_deletes_one, report_of, step, waiting};
use super::example::fill_both;
use super::*;

/// Makes a tree and its two workers.
fn near_of(rt: &(impl Abort + AllocGlobal), nodes: u32) -> Result<(Tree, Worker, Worker), Fail>
    ensures { IfOk result (λ r. MayCall r.0 r.1 × MayCall r.0 r.2) }
{
    let (tree, mut workers) = Tree::of(rt.alloc(), Layout::new(nodes, 2)?, Fit::NextFit)?;
    let Some(second) = workers.pop() else {
        unreachable!()
    };
    let Some(first) = workers.pop() else {
        unreachable!()
    };
    Ok((tree, first, second))
}

/// Returns the answer that the epoch was advanced to this one.
fn moved(epoch: u64) -> Answer {
    Answer::Moved(Advance::Moved { epoch })
}

#[test]
fn two_threads_fill_a_near_set(rt: HostRuntime) -> Result<(), Fail> {
    let (tree, one, two) = near_of(&rt, 1024)?;
    let ((mut one, even), (two, odd)) = fill_both(&rt, &tree, one, two);
    assert_eq!(rt; (even, odd), (100, 100));
    step(&rt, &tree, &mut one, Call::Has(150), Answer::Is(true));
    step(&rt, &tree, &mut one, Call::Delete(150), Answer::Is(true));
    step(&rt, &tree, &mut one, Call::Has(150), Answer::Is(false));
    let report = report_of(&rt, tree, both(rt.alloc(), one, two)?);
    assert_eq!(rt; report.keys.len(), 199);
    assert_eq!(rt; report.reached, 398);
    assert_eq!(rt; report.free, 1024 - 5 - 398 - 2);
    Ok(())
}

#[test]
fn each_worker_looks_from_a_cursor_of_its_own(rt: HostRuntime) -> Result<(), Fail> {
    let (tree, mut first, mut second) = near_of(&rt, 200)?;
    each_deletes_one(&rt, &tree, &mut first, &mut second);
    let mut report = report_of(&rt, tree, both(rt.alloc(), first, second)?);
    assert_eq!(rt; waiting(&mut report, 0), (2, [(6, 1, 0), (7, 1, 0)]));
    assert_eq!(rt; waiting(&mut report, 1), (2, [(65, 1, 0), (66, 1, 0)]));
    assert_eq!(rt; (report.free, report.reached), (191, 0));
    Ok(())
}

/// Worker 1 deletes, frees both nodes, and claims their slots again: the one freed last is first.
#[test]
fn slots_that_were_freed_are_taken_first(rt: HostRuntime) -> Result<(), Fail> {
    let (tree, first, mut second) = near_of(&rt, 200)?;
    step(&rt, &tree, &mut second, Call::Insert(5), Answer::Is(true));
    step(&rt, &tree, &mut second, Call::Delete(5), Answer::Is(true));
    step(&rt, &tree, &mut second, Call::Advance, moved(1));
    step(&rt, &tree, &mut second, Call::Advance, moved(2));
    let freed = Answer::Freed(Collected { epoch: 2, freed: 2 });
    step(&rt, &tree, &mut second, Call::Collect, freed);
    step(&rt, &tree, &mut second, Call::Insert(6), Answer::Is(true));
    step(&rt, &tree, &mut second, Call::Delete(6), Answer::Is(true));
    let mut report = report_of(&rt, tree, both(rt.alloc(), first, second)?);
    assert_eq!(rt; waiting(&mut report, 1), (2, [(66, 2, 2), (65, 2, 2)]));
    assert_eq!(rt; (report.free, report.reached), (193, 0));
    Ok(())
}

#[test]
fn a_near_set_is_full_where_each_slot_is_taken(rt: HostRuntime) -> Result<(), Fail> {
    let (tree, mut first, mut second) = near_of(&rt, 9)?;
    step(&rt, &tree, &mut second, Call::Insert(5), Answer::Is(true));
    step(&rt, &tree, &mut first, Call::Insert(6), Answer::Is(true));
    let full = Answer::Not(CallFault::Full);
    step(&rt, &tree, &mut first, Call::Insert(7), full);
    step(&rt, &tree, &mut second, Call::Insert(7), full);
    let report = report_of(&rt, tree, both(rt.alloc(), first, second)?);
    assert_eq!(rt; (report.free, report.reached), (0, 4));
    Ok(())
}
