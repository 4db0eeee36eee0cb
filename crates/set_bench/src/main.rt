//! Measures look-ups and mixed calls on three sets: a tree that claims the lowest free slot, a tree
//! that claims by next fit, and a `BTreeSet` in a `Mutex`. At the end it checks that each set has
//! as many keys as its inserts and deletes leave. Before that it measures a `BlockQueue` and a
//! `VecDeque`.
//!
//! The arguments are these numbers, in this order:
//! - the number of items that pass through each queue (0 measures no queue);
//! - the number of rounds;
//! - the number of keys in the sets at first;
//! - the number of nodes for which the trees have room;
//! - the distance between the numbers of the threads' workers (1 to 21);
//! - the number of its calls after which a thread advances the epoch and frees the ripe nodes (at
//!   least 1);
//! - four numbers for each part of a round: how many of 100 calls are look-ups; how many threads
//!   there are (at most 4); how many calls each makes; and how many calls each makes on the tree
//!   that claims the lowest slot, which may be fewer.
//!
//! Keys are drawn from twice as many as the sets have at first, so that about half of them are
//! found. Standard output has what was found and changed and what is left, standard error has the
//! times in microseconds.
#![tactic(auto)]

mod grown;
mod habits;
mod load;
mod locked;
mod queues;
mod trees;

use crate::grown::{Grown, Sizes};
use crate::habits::{Habits, THREADS};
use crate::load::Load;
use crate::locked::Locked;
use anyhow::{Context, Result, bail, ensure};
use std::alloc::{AllocGlobal, Global};
use std::env;
use std::num::{NonZeroU32, NonZeroU64};
use std::sync::Wait;
use std::thread::Threads;
use std::time::{Clock, Duration, Instant};

/// A part of a round: a load, and how many calls a thread makes on the tree that claims the lowest
/// slot.
#[derive(Clone, Copy)]
struct Part {
    load: Load,
    lowest_calls: u64,
}

/// The three sets that are compared.
#[derive(Drop)]
struct Sets {
    lowest: Grown,
    near: Grown,
    locked: Locked,
}

/// Prints how long a load took on the set of that name.
fn tell(rt: &impl Eprint, name: &str, load: Load, time: Duration) -> Result<()> {
    let Load {
        lookups,
        threads,
        calls,
        ..
    } = load;
    let micros = time.as_micros();
    eprintln!(rt; "{name} {lookups} {threads} {calls} {micros}")?;
    Ok(())
}

/// Measures a load on the tree of that name.
fn time_tree<R: Threads + Sync + AllocGlobal + Clock + Eprint>(
    rt: &R,
    name: &str,
    grown: &mut Grown,
    load: Load,
) -> Result<()> {
    let start = Instant::now(rt)?;
    grown.play(rt, rt.alloc(), load)?;
    tell(rt, name, load, start.elapsed(rt)?)
}

/// Measures a load on the set in a lock.
fn time_locked<R: Threads + Wait + Sync + AllocGlobal + Clock + Eprint>(
    rt: &R,
    set: &Locked,
    load: Load,
) -> Result<()> {
    let start = Instant::now(rt)?;
    set.play(rt, rt.alloc(), load)?;
    tell(rt, "locked", load, start.elapsed(rt)?)
}

/// Plays a round: each part on each set.
fn race<R: Threads + Wait + Sync + AllocGlobal + Clock + Eprint>(
    rt: &R,
    sets: &mut Sets,
    parts: &[Part],
) -> Result<()> {
    for part in parts {
        let fewer = Load {
            calls: part.lowest_calls,
            ..part.load
        };
        time_tree(rt, "lowest", &mut sets.lowest, fewer)?;
        time_tree(rt, "near", &mut sets.near, part.load)?;
        time_locked(rt, &sets.locked, part.load)?;
    }
    Ok(())
}

/// Makes the three sets, and fills them.
fn open<R: Threads + Sync>(rt: &R, alloc: Global, sizes: Sizes, habits: Habits) -> Result<Sets> {
    let mut lowest = Grown::lowest(alloc, sizes.nodes, habits)?;
    lowest.fill(rt, alloc, sizes.keys)?;
    let mut near = Grown::near(alloc, sizes.nodes, habits)?;
    near.fill(rt, alloc, sizes.keys)?;
    let locked = Locked::filled(alloc, sizes.keys)?;
    Ok(Sets {
        lowest,
        near,
        locked,
    })
}

/// Opens the three sets, measures them, and closes them.
fn compare<R: Threads + Wait + Sync + AllocGlobal + Clock + Print + Eprint>(
    rt: &R,
    sizes: Sizes,
    habits: Habits,
    parts: &[Part],
    rounds: u64,
) -> Result<()> {
    let mut sets = open(rt, rt.alloc(), sizes, habits)?;
    for _ in 0..rounds {
        race(rt, &mut sets, parts)?;
    }
    sets.lowest.close(rt, "lowest", sizes.nodes)?;
    sets.near.close(rt, "near", sizes.nodes)?;
    sets.locked.close(rt, "locked")
}

/// Returns the arguments as numbers.
fn numbers(rt: &HostRuntime) -> Result<Vec<u64>> {
    let mut numbers = Vec::new(rt.alloc());
    for text in env::args(rt)?.skip(1) {
        numbers.push(text.parse::<u64>().context("a number")?)?;
    }
    Ok(numbers)
}

/// Returns the habits that two numbers name.
fn habits_of(apart: u64, tend: u64) -> Result<Habits> {
    let apart = u32::try_from(apart).context("a distance of workers")?;
    Ok(Habits {
        apart: NonZeroU32::new(apart).context("a distance of workers that is not 0")?,
        tend: NonZeroU64::new(tend).context("a number of calls that is not 0")?,
    })
}

/// Returns the part that four numbers name.
fn part_of(lookups: u64, threads: u64, calls: u64, lowest_calls: u64, keys: u64) -> Result<Part> {
    let load = Load {
        lookups,
        threads: u32::try_from(threads).context("a number of threads")?,
        calls,
        keys,
    };
    ensure!(load.threads <= THREADS, "there are too many threads");
    Ok(Part { load, lowest_calls })
}

/// Returns the parts that these numbers name, four for each.
fn parts_of(alloc: Global, numbers: &[u64], keys: u64) -> Result<Vec<Part>> {
    let mut parts = Vec::new(alloc);
    for four in numbers.chunks_exact(4) {
        if let [lookups, threads, calls, lowest_calls] = four {
            parts.push(part_of(*lookups, *threads, *calls, *lowest_calls, keys)?)?;
        }
    }
    Ok(parts)
}

fn main(rt: HostRuntime) -> Result<()> {
    let numbers = numbers(&rt)?;
    let [items, rounds, keys, nodes, apart, tend, rest @ ..] = numbers.as_slice() else {
        bail!("the numbers of items, rounds, keys and nodes and the habits are wanted");
    };
    let sizes = Sizes {
        nodes: u32::try_from(*nodes).context("a number of nodes")?,
        keys: *keys,
    };
    let habits = habits_of(*apart, *tend)?;
    let parts = parts_of(rt.alloc(), rest, keys.saturating_mul(2))?;
    queues::compare(&rt, *items)?;
    compare(&rt, sizes, habits, parts.as_slice(), *rounds)
}
