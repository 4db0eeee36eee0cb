//! Loads on a `BTreeSet` in a `Mutex`.
use crate::load::{Done, Load, SetCall, Tally, Totals, key_of};
use anyhow::{Context, Result};
use std::alloc::{AllocError, Global};
use std::collections::BTreeSet;
use std::sync::{Mutex, Wait};
use std::thread::{self, Threads};

/// An ordered set in a lock, and what was done in it.
#[derive(Drop)]
pub struct Locked {
    keys: Mutex<BTreeSet<u64>>,
    totals: Totals,
}

/// Makes a call, and returns its result.
fn make(rt: &impl Wait, keys: &Mutex<BTreeSet<u64>>, call: SetCall) -> Result<Done, AllocError> {
    let mut keys = keys.lock(rt);
    let (answer, done) = match call {
        SetCall::Has(key) => (keys.contains(&key.get()), Done::Found),
        SetCall::Insert(key) => (keys.insert(key.get())?, Done::Inserted),
        SetCall::Delete(key) => (keys.remove(&key.get()), Done::Deleted),
    };
    Ok(if answer { done } else { Done::Nothing })
}

/// Makes the calls of one thread.
fn play(rt: &impl Wait, keys: &Mutex<BTreeSet<u64>>, thread: u32, load: Load) -> Tally {
    let mut tally = Tally::none();
    for turn in 0..load.calls {
        if let Some(call) = load.call(thread, turn) {
            if let Ok(done) = make(rt, keys, call) {
                tally = tally.with(done);
            }
        }
    }
    tally
}

impl Locked {
    /// Makes a set of the first `count` keys.
    pub fn filled(alloc: Global, count: u64) -> Result<Locked> {
        let mut keys = BTreeSet::new(alloc);
        let mut tally = Tally::none();
        for number in 0..count {
            let key = key_of(number).context("a key")?;
            if keys.insert(key.get())? {
                tally = tally.with(Done::Inserted);
            }
        }
        let totals = Totals::none();
        totals.add(tally);
        Ok(Locked {
            keys: Mutex::new(keys),
            totals,
        })
    }

    /// Plays a load; each thread makes its own calls.
    pub fn play<R: Threads + Wait + Sync>(
        &self,
        rt: &R,
        alloc: Global,
        load: Load,
    ) -> Result<(), AllocError> {
        let count = load.threads as usize;
        let one = |thread: usize| self.totals.add(play(rt, &self.keys, thread as u32, load));
        thread::map_indices(rt, alloc, count, &one)?;
        Ok(())
    }

    /// Prints what was done and what is left. Errors: the keys do not add up.
    pub fn close<R: Wait + Print>(self, rt: &R, name: &str) -> Result<()> {
        let Locked { keys, totals } = self;
        let left = keys.lock(rt).len() as u64;
        totals.tell(rt, name, left)
    }
}
