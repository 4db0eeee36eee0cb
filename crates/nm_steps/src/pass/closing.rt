//! The end of a table.
ghost use Rattle.std.specs.Prelude.{◌≡◌, ◌-◌, ◌<◌, ◌≤◌, ℕ, false, true, length, slice_index, slice_index_or};
ghost use Rattle.nm_edge.specs.Words.{words};
ghost use Rattle.nm_steps.specs.Steps.{IsOf, Ends};
ghost use Rattle.nm_steps.specs.Values.{EndsWithValues, HasValues};

use crate::pass::{Pass, Shared};
use atomic_table::Closed;
use std::alloc::Global;
use std::marker::Model;

/// The words of a tree that is no longer shared: the first `count` words of its table. The words
/// after them are the values of its slots, if it has values.
pub struct Words {
    closed: Closed<(), Global>,
    count: usize,
}

impl Model for Words {
    ghost use Rattle.std.specs.Prelude.{◌≡◌, ◌<◌, ◌≤◌, ℕ, true, false, slice_index_or, drop, take};
    ghost use Rattle.nm_steps.specs.Steps.{EndedWords};

    ghost Value = { EndedWords };

    ghost view = { λ w. record {
      core = take w.count w.closed.words.items;
      values = drop w.count w.closed.words.items;
    } };

    ghost invariant = { λ w. (w.count ≤ w.closed.words.len)
        × ((k : ℕ) → 0 ≤ k → k < w.closed.words.len
        → slice_index_or w.closed.words.filled k false ≡ true)
        × ((k : ℕ) → 0 ≤ k → k < w.closed.slots.len
        → slice_index_or w.closed.slots.filled k false ≡ true) };
}

impl Shared {
    /// Ends the table and returns its words. They are those at the end of some run, which extends
    /// what the pass has seen, and the logs of the pass are parts of that run. If the table has
    /// values, each slot has the one that was stored last for it. The call consumes the table, so no
    /// pass can take a step after it.
    pub fn close(self, pass: Pass) -> Words
        requires { IsOf self pass }
        ensures ends { Ends self.layout result.core pass.view }
        ensures long { length result.core ≡ words self.layout }
        ensures values { HasValues self → EndsWithValues self.layout result pass.view }
    {
        let Shared {
            table,
            layout,
            values: _,
        } = self;
        let Pass {
            seat,
            number: _,
            announcement_word: _,
            brief: _,
        } = pass;
        Words {
            closed: table.close_with(seat),
            count: layout.words() as usize,
        }
    }
}

impl Words {
    /// Returns the word of that index.
    pub fn word(&self, index: usize) -> u64
        requires { index < length self.now.core }
        ensures { result ≡ slice_index self.now.core index }
    {
        self.closed.word(index)
    }

    /// Returns the value of that slot, in a table with values.
    pub fn value(&self, slot: u32) -> u64
        requires low { 1 ≤ slot }
        requires high { slot ≤ length self.now.values }
        ensures { result ≡ slice_index self.now.values (slot - 1) }
    {
        self.closed.word(self.count + (slot - 1) as usize)
    }
}

impl Drop for Words {
    fn drop(self) {
        let Words {
            mut closed,
            count: _,
        } = self;
        take_slots(&mut closed);
        closed.free();
    }
}

/// Takes what is in each slot of the table, which has no bytes.
fn take_slots(closed: &mut Closed<(), Global>)
    requires { (k : ℕ) → k < closed.old.slots.len
        → slice_index_or closed.old.slots.filled k false ≡ true }
    ensures { (k : ℕ) → k < closed.new.slots.len
        → slice_index_or closed.new.slots.filled k false ≡ false }
{
    for slot in 0..closed.slot_count() {
        closed.take(slot);
    }
}
