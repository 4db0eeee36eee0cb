//! Measures pushes and pops of a `BlockQueue` and of a `VecDeque`, each with 900 items in it
//! throughout.
ghost use Rattle.std.specs.Prelude.{◌<◌};

use anyhow::Result;
use nm_limbo::{BlockQueue, NoMemory};
use std::alloc::{AllocError, AllocGlobal, Global};
use std::collections::VecDeque;
use std::time::{Clock, Duration, Instant};

const KEPT: u32 = 900;

fn through_queue(alloc: Global, items: u64) -> Result<u64, NoMemory> {
    let mut queue = BlockQueue::new(alloc);
    queue.reserve(1024)?;
    let mut sum = 0u64;
    for item in 0..items {
        if queue.spare() == 0 {
            return Err(NoMemory);
        }
        queue.push_reserved(item);
        if queue.len() > KEPT {
            if let Some(first) = queue.pop() {
                sum = sum.wrapping_add(first);
            }
        }
    }
    Ok(sum)
}

fn through_deque(alloc: Global, items: u64) -> Result<u64, AllocError> {
    let mut deque = VecDeque::with_capacity(alloc, 1024)?;
    let mut sum = 0u64;
    for item in 0..items {
        deque.push_back(item)?;
        if deque.len() > KEPT as usize {
            if let Some(first) = deque.pop_front() {
                sum = sum.wrapping_add(first);
            }
        }
    }
    Ok(sum)
}

/// Returns the time in milliseconds, at least 1.
fn millis(time: Duration) -> u128
    ensures { 0 < result }
{
    time.as_millis().max(1)
}

/// Measures both queues once, with that number of items.
fn time_both<R: AllocGlobal + Clock + Print + Eprint>(rt: &R, items: u64) -> Result<()> {
    let start = Instant::now(rt)?;
    let queued = through_queue(rt.alloc(), items)?;
    let queue_time = start.elapsed(rt)?;
    let start = Instant::now(rt)?;
    let deque_sum = through_deque(rt.alloc(), items)?;
    let deque_time = start.elapsed(rt)?;
    println!(rt; "queues: {queued} {deque_sum}")?;
    let percent = millis(queue_time).saturating_mul(100) / millis(deque_time);
    eprintln!(rt;
        "BlockQueue {} ms, VecDeque {} ms: {percent} percent",
        millis(queue_time),
        millis(deque_time)
    )?;
    Ok(())
}

/// Measures both queues three times. Prints the sums of the popped items to standard output, and
/// the times to standard error. Measures nothing if there are no items.
pub fn compare<R: AllocGlobal + Clock + Print + Eprint>(rt: &R, items: u64) -> Result<()> {
    let rounds = if items == 0 { 0 } else { 3 };
    for _ in 0..rounds {
        time_both(rt, items)?;
    }
    Ok(())
}
