use crate::{BlockQueue, NoMemory};
use linked_list_allocator::LocalHeap;
use std::alloc::{Allocator, Global};
use std::cell::Cell;
use std::process::Abort;
use std::test::*;

/// An item that counts its drop.
struct Counted<'a> {
    drops: &'a Cell<u32>,
}

impl Drop for Counted<'_> {
    fn drop(self) {
        let Counted { drops } = self;
        drops.set(drops.get().wrapping_add(1));
    }
}

fn reserve<T, A: Allocator>(
    rt: &impl Abort,
    queue: &mut BlockQueue<T, A>,
    n: u32,
) -> Result<(), NoMemory> {
    assert!(rt; n <= 1024 && queue.len() <= 536_870_912);
    queue.reserve(n)
}

fn push<T, A: Allocator>(rt: &impl Abort, queue: &mut BlockQueue<T, A>, item: T) {
    assert!(rt; queue.spare() > 0);
    queue.push_reserved(item);
}

fn counts<T, A: Allocator>(queue: &BlockQueue<T, A>) -> (u32, u32, u32) {
    (queue.blocks(), queue.spare(), queue.len())
}

#[test]
fn blocks_are_taken_and_used_again(rt: HostRuntime) -> Result<(), Fail> {
    let mut queue = BlockQueue::new(rt.alloc());
    assert_eq!(rt; counts(&queue), (0, 0, 0));
    assert!(rt; queue.is_empty() && queue.front().is_none());
    reserve(&rt, &mut queue, 64)?;
    assert_eq!(rt; counts(&queue), (2, 64, 0));
    for item in 0..40u64 {
        push(&rt, &mut queue, item);
    }
    assert_eq!(rt; counts(&queue), (2, 24, 40));
    assert_eq!(rt; queue.front(), Some(&0));
    for item in 0..31 {
        assert_eq!(rt; queue.pop(), Some(item));
    }
    assert_eq!(rt; counts(&queue), (2, 24, 9));
    assert_eq!(rt; queue.pop(), Some(31));
    assert_eq!(rt; counts(&queue), (2, 56, 8));
    reserve(&rt, &mut queue, 57)?;
    assert_eq!(rt; counts(&queue), (3, 88, 8));
    assert!(rt; !queue.is_empty());
    assert_eq!(rt; queue.front(), Some(&32));
    Ok(())
}

#[test]
fn drops_each_item_once(rt: HostRuntime) -> Result<(), Fail> {
    let drops = Cell::new(0);
    let mut queue = BlockQueue::new(rt.alloc());
    reserve(&rt, &mut queue, 100)?;
    for _ in 0..100 {
        push(&rt, &mut queue, Counted { drops: &drops });
    }
    for _ in 0..40 {
        drop(queue.pop());
    }
    assert_eq!(rt; drops.get(), 40);
    drop(queue);
    assert_eq!(rt; drops.get(), 100);
    Ok(())
}

/// Each bit of `mix` is a step: a set one pushes eleven items, and a clear one pops seven.
fn drops_after(rt: &impl Abort, alloc: Global, mix: u32) -> Result<(u32, u32), Fail> {
    let (drops, mut pushed) = (Cell::new(0), 0u32);
    let mut queue = BlockQueue::new(alloc);
    for step in 0..10u32 {
        if mix & (1 << step) == 0 {
            for _ in 0..7 {
                drop(queue.pop());
            }
        } else {
            reserve(rt, &mut queue, 11)?;
            for _ in 0..11 {
                push(rt, &mut queue, Counted { drops: &drops });
                pushed = pushed.wrapping_add(1);
            }
        }
        assert_eq!(rt; drops.get().wrapping_add(queue.len()), pushed);
    }
    drop(queue);
    Ok((drops.get(), pushed))
}

#[test]
fn drops_each_item_once_after_every_mix(rt: HostRuntime) -> Result<(), Fail> {
    for mix in 0..1024 {
        let (dropped, pushed) = drops_after(&rt, rt.alloc(), mix)?;
        assert_eq!(rt; dropped, pushed, "at {mix}");
    }
    Ok(())
}

#[test]
fn keeps_its_items_when_memory_is_refused(rt: HostRuntime) -> Result<(), Fail> {
    for got in 0..5u32 {
        // A block of 32 numbers and its link takes 272 bytes of the heap.
        let heap = LocalHeap::new(rt.alloc(), 272 * got as usize + 100)?;
        let mut queue = BlockQueue::new(&heap);
        assert_eq!(rt; reserve(&rt, &mut queue, 160), Err(NoMemory));
        assert_eq!(rt; counts(&queue), (got, 32 * got, 0));
        for item in 0..32 * got as u64 {
            push(&rt, &mut queue, item);
        }
        assert_eq!(rt; reserve(&rt, &mut queue, 1), Err(NoMemory));
        assert_eq!(rt; counts(&queue), (got, 0, 32 * got));
        for item in 0..32 * got as u64 {
            assert_eq!(rt; queue.pop(), Some(item));
        }
        assert_eq!(rt; counts(&queue), (got, 32 * got, 0));
        drop(queue);
        assert_eq!(rt; heap.used(), 0);
    }
    assert_eq!(rt;
        format!(in rt.alloc(); "{NoMemory}")?.as_str(),
        "there is no memory for a block of the queue"
    );
    Ok(())
}

#[test]
fn a_refused_reserve_can_be_made_again(rt: HostRuntime) -> Result<(), Fail> {
    // Room for two blocks of 32 numbers with their links.
    let heap = LocalHeap::new(rt.alloc(), 272 * 2 + 100)?;
    let mut other = BlockQueue::new(&heap);
    let mut queue = BlockQueue::new(&heap);
    reserve(&rt, &mut other, 32)?;
    push(&rt, &mut other, 1u64);
    assert_eq!(rt; reserve(&rt, &mut queue, 64), Err(NoMemory));
    assert_eq!(rt; counts(&queue), (1, 32, 0));
    push(&rt, &mut queue, 7u64);
    drop(other);
    assert_eq!(rt; reserve(&rt, &mut queue, 63), Ok(()));
    assert_eq!(rt; counts(&queue), (2, 63, 1));
    assert_eq!(rt; queue.pop(), Some(7));
    Ok(())
}

#[test]
fn empty_blocks_go_back_but_for_those_that_are_needed(rt: HostRuntime) -> Result<(), Fail> {
    // Room for nine blocks of 32 numbers with their links.
    let heap = LocalHeap::new(rt.alloc(), 272 * 9 + 100)?;
    let mut queue = BlockQueue::new(&heap);
    assert_eq!(rt; queue.shrink_to(0).blocks(), 0);
    reserve(&rt, &mut queue, 256)?;
    for item in 0..40u64 {
        push(&rt, &mut queue, item);
    }
    let taken = heap.used();
    assert_eq!(rt; counts(&queue), (8, 216, 40));
    assert_eq!(rt; queue.shrink_to(217).blocks(), 0);
    assert_eq!(rt; queue.shrink_to(185).blocks(), 0);
    assert_eq!(rt; queue.shrink_to(184).blocks(), 1);
    assert_eq!(rt; counts(&queue), (7, 184, 40));
    assert_eq!(rt; queue.shrink_to(50).blocks(), 4);
    assert_eq!(rt; counts(&queue), (3, 56, 40));
    assert_eq!(rt; queue.shrink_to(0).blocks(), 1);
    assert_eq!(rt; counts(&queue), (2, 24, 40));
    assert!(rt; taken.saturating_sub(heap.used()) >= 272 * 6);
    for item in 0..40 {
        assert_eq!(rt; queue.pop(), Some(item));
    }
    // The front block has used-up places, so it stays.
    assert_eq!(rt; counts(&queue), (2, 56, 0));
    assert_eq!(rt; queue.shrink_to(0).blocks(), 1);
    assert_eq!(rt; counts(&queue), (1, 24, 0));
    reserve(&rt, &mut queue, 25)?;
    push(&rt, &mut queue, 7);
    assert_eq!(rt; queue.front(), Some(&7));
    drop(queue);
    assert_eq!(rt; heap.used(), 0);
    Ok(())
}

fn sends<T: Send>(value: T) -> T {
    value
}

fn shares<T: Sync>(value: &T) -> &T {
    value
}

#[test]
fn crosses_threads_where_its_items_may(rt: HostRuntime) {
    let queue: BlockQueue<u64> = sends(BlockQueue::new(rt.alloc()));
    assert!(rt; shares(&queue).is_empty());
}
