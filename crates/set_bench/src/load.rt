//! The calls that the threads make in a round.
use anyhow::{Result, ensure};
use nm_edge::Key;
use std::sync::atomic::{AtomicU64, Ordering};

/// A part of a round: how many of 100 calls are look-ups, how many threads make calls, how many
/// calls each makes, and from how many keys they draw. The other calls are inserts and deletes,
/// about as many of each.
#[derive(Clone, Copy, Debug, PartialEq, Eq)]
pub struct Load {
    pub lookups: u64,
    pub threads: u32,
    pub calls: u64,
    pub keys: u64,
}

/// A call, with its key.
#[derive(Clone, Copy, Debug, PartialEq, Eq)]
pub enum SetCall {
    Has(Key),
    Insert(Key),
    Delete(Key),
}

/// The result of a call.
#[derive(Clone, Copy, Debug, PartialEq, Eq)]
pub enum Done {
    Nothing,
    Found,
    Inserted,
    Deleted,
}

/// How many keys one thread has found, inserted and deleted.
#[derive(Clone, Copy, Debug, PartialEq, Eq)]
pub struct Tally {
    found: u64,
    inserted: u64,
    deleted: u64,
}

impl Tally {
    pub fn none() -> Tally {
        Tally {
            found: 0,
            inserted: 0,
            deleted: 0,
        }
    }

    /// Returns the same with one more call.
    pub fn with(self, done: Done) -> Tally {
        match done {
            Done::Nothing => self,
            Done::Found => Tally {
                found: self.found.wrapping_add(1),
                ..self
            },
            Done::Inserted => Tally {
                inserted: self.inserted.wrapping_add(1),
                ..self
            },
            Done::Deleted => Tally {
                deleted: self.deleted.wrapping_add(1),
                ..self
            },
        }
    }
}

/// How many keys all threads have found, inserted and deleted in a set.
#[derive(Drop)]
pub struct Totals {
    found: AtomicU64,
    inserted: AtomicU64,
    deleted: AtomicU64,
}

impl Totals {
    pub fn none() -> Totals {
        Totals {
            found: AtomicU64::new(0),
            inserted: AtomicU64::new(0),
            deleted: AtomicU64::new(0),
        }
    }

    /// Adds what a thread has done.
    pub fn add(&self, tally: Tally) {
        self.found.fetch_add(tally.found, Ordering::SeqCst);
        self.inserted.fetch_add(tally.inserted, Ordering::SeqCst);
        self.deleted.fetch_add(tally.deleted, Ordering::SeqCst);
    }

    /// Prints the totals, and how many keys are left in the set of that name. Errors: these do not
    /// add up.
    pub fn tell(self, rt: &impl Print, name: &str, left: u64) -> Result<()> {
        let found = self.found.into_inner();
        let inserted = self.inserted.into_inner();
        let deleted = self.deleted.into_inner();
        println!(rt;
            "{name}: {found} keys found, {inserted} inserted, {deleted} deleted, {left} left"
        )?;
        ensure!(
            inserted.wrapping_sub(deleted) == left,
            "the keys do not add up"
        );
        Ok(())
    }
}

/// Returns the number of that index in a fixed pseudo-random sequence (the generator SplitMix64).
pub fn mixed(index: u64) -> u64 {
    let mut bits = index.wrapping_mul(0x9e37_79b9_7f4a_7c15);
    bits = (bits ^ (bits >> 30)).wrapping_mul(0xbf58_476d_1ce4_e5b9);
    bits = (bits ^ (bits >> 27)).wrapping_mul(0x94d0_49bb_1331_11eb);
    bits ^ (bits >> 31)
}

/// Returns the key with that number.
pub fn key_of(number: u64) -> Option<Key> {
    Key::new(mixed(number) >> 1)
}

impl Load {
    /// Returns the call of a thread at that turn.
    pub fn call(self, thread: u32, turn: u64) -> Option<SetCall> {
        let draw = mixed((u64::from(thread) << 40).wrapping_add(turn));
        let key = key_of((draw >> 20) % self.keys.max(1))?;
        let sort = draw % 200;
        if sort / 2 < self.lookups {
            return Some(SetCall::Has(key));
        }
        if sort % 2 == 0 {
            return Some(SetCall::Insert(key));
        }
        Some(SetCall::Delete(key))
    }
}
