//! The steps on the pool, each on one bit of one word.
ghost use Rattle.std.specs.Prelude.{◌≡◌, ◌+◌, ◌-◌, ◌%◌, ◌≤◌, true};
ghost use Rattle.nm_model.specs.declared.event.Event.TheVariants.{Claim, Give};
ghost use Rattle.nm_order.specs.Told.{IsNew};
ghost use Rattle.nm_steps.specs.Rules.{knowledge};
ghost use Rattle.nm_steps.specs.Rows.{DoneBelow, FoundTaken, shown_taken};
ghost use Rattle.nm_steps.specs.Steps.{Continues, IsOf, MayStep, TakesStep, claim_reply, give_reply};

use crate::pass::{Pass, Shared};
use nm_edge::place_in_row;
use nm_model::Event;
use std::marker::Brand;

impl Shared {
    /// Takes a slot out of the pool; returns whether the slot was there. A slot that was taken is
    /// new to the worker: it was not private to it, not known to it, and in no queue that it holds.
    pub fn claim(&self, pass: &mut Pass, slot: u32) -> bool
        requires own { IsOf self.now pass.old }
        requires may { MayStep pass.old (Claim slot) }
        ensures took { TakesStep pass.old pass.new (Claim slot) (claim_reply slot result) }
        ensures new { result ≡ true
            → IsNew pass.old.view.layout pass.old.view.number pass.old.view.log slot }
    {
        let place = self.layout.pool(slot);
        let word = place.word as usize;
        let event = Event::Claim(slot);
        let found = self.clear::<Brand>(&mut pass.seat, word, !place.mask, &event);
        found & place.mask != 0
    }

    /// Looks once at the row of a slot, by one load. It returns the first of `most` slots, from
    /// `from` on, that the word shows as free, or the slot after all of them. Each slot before the
    /// result was found taken, all at one moment.
    pub fn pass_row(&self, pass: &mut Pass, from: u32, most: u32) -> u32
        requires own { IsOf self.now pass.old }
        requires low { 6 ≤ from }
        requires some { 1 ≤ most }
        requires high { from + most ≤ self.now.layout.nodes + 1 }
        requires row { (from - 1) % 64 + most ≤ 64 }
        ensures on { Continues pass.old pass.new }
        ensures least { from ≤ result }
        ensures most { result ≤ from + most }
        ensures passed { DoneBelow FoundTaken from result pass.old.view.log pass.new.view.log }
        ensures learned { knowledge pass.new.view ≡ knowledge pass.old.view }
    {
        let word = self.layout.pool(from).word as usize;
        let found = self.look_at_row::<Brand>(&mut pass.seat, word, from, most);
        from + taken_in_row(found, from, most)
    }

    /// Reads the row of a slot, by one load; returns the first slot of the row that its word shows
    /// as free, if there is one. The log does not change, so the slot does not count as found, and
    /// it may be outside of the pool's range.
    #[inline(always)]
    pub fn glance(&self, pass: &mut Pass, slot: u32) -> Option<u32>
        requires own { IsOf self.now pass.old }
        requires low { 6 ≤ slot }
        requires high { slot ≤ self.now.layout.nodes }
        ensures on { Continues pass.old pass.new }
        ensures log { pass.new.view.log ≡ pass.old.view.log }
        ensures learned { knowledge pass.new.view ≡ knowledge pass.old.view }
    {
        let word = self.layout.pool(slot).word as usize;
        let found = self.look_at_row::<Brand>(&mut pass.seat, word, slot, 0);
        if found == 0 {
            return None;
        }
        Some(slot - place_in_row(slot) + found.trailing_zeros())
    }

    /// Puts a slot back into the pool: a private one, or the front of a queue that the worker
    /// holds.
    pub fn give(&self, pass: &mut Pass, slot: u32)
        requires own { IsOf self.now pass.old }
        requires may { MayStep pass.old (Give slot) }
        ensures { TakesStep pass.old pass.new (Give slot) (give_reply pass.old.view slot) }
    {
        let place = self.layout.pool(slot);
        let word = place.word as usize;
        self.mark::<Brand>(&mut pass.seat, word, place.mask, &Event::Give(slot));
    }
}

/// Returns how many of `most` slots of a row, from `from` on, the word shows as taken, up to the
/// first one that it shows as free.
fn taken_in_row(found: u64, from: u32, most: u32) -> u32
    requires low { 1 ≤ from }
    requires row { (from - 1) % 64 + most ≤ 64 }
    ensures { result ≡ shown_taken found from most }
{
    if found == 0 {
        return most;
    }
    (found >> ((from - 1) % 64)).trailing_zeros().min(most)
}
