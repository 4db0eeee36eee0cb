//! The steps on values, whose words come after those of the core.
ghost use Rattle.std.specs.Prelude.{◌≡◌, true};
ghost use Rattle.nm_edge.specs.Words.{IsSlot};
ghost use Rattle.nm_model.specs.Knowledge.{is_private};
ghost use Rattle.nm_steps.specs.Rules.{HasNotStored, knowledge, value_of};
ghost use Rattle.nm_steps.specs.Steps.{IsOf};
ghost use Rattle.nm_steps.specs.Values.{HasStoredFor, HasValues, OnlySees, SeesLeft, value_word};

use crate::pass::{Pass, Shared};
use nm_edge::Side;
use std::marker::Brand;

impl Shared {
    /// Returns the value of a slot: the one that was stored last for it, or 0. The look is in no
    /// log.
    #[inline(always)]
    pub fn look_value(&self, pass: &mut Pass, slot: u32) -> u64
        requires own { IsOf self.now pass.old }
        requires values { HasValues self.now }
        requires slot { IsSlot self.now.layout slot }
        ensures looks { OnlySees pass.old pass.new }
        ensures value { result ≡ value_of pass.new.view.stores slot }
    {
        let word = self.value_word(slot);
        self.look_at_value::<Brand>(&mut pass.seat, word, slot)
    }

    /// Returns whether the left edge of a slot leads to no node, as that of a leaf does. The look is
    /// in no log.
    pub fn look_bare(&self, pass: &mut Pass, slot: u32) -> bool
        requires own { IsOf self.now pass.old }
        requires values { HasValues self.now }
        requires slot { IsSlot self.now.layout slot }
        ensures { SeesLeft pass.old pass.new slot result }
    {
        let word = self.layout.edge(slot, Side::Left) as usize;
        self.look_at_left::<Brand>(&mut pass.seat, word, slot) < 4
    }

    /// Stores the value of a private slot. The store is in no log. Between two of its steps a worker
    /// stores at most one value.
    pub fn fill_value(&self, pass: &mut Pass, slot: u32, value: u64)
        requires own { IsOf self.now pass.old }
        requires values { HasValues self.now }
        requires slot { IsSlot self.now.layout slot }
        requires private { is_private (knowledge pass.old.view) slot ≡ true }
        requires once { HasNotStored pass.old.view }
        ensures looks { OnlySees pass.old pass.new }
        ensures stored { HasStoredFor pass.old pass.new slot value }
    {
        let word = self.value_word(slot);
        self.store_value::<Brand>(&mut pass.seat, word, slot, value);
    }

    /// Returns the number of the word of a slot's value.
    #[inline(always)]
    fn value_word(&self, slot: u32) -> usize
        requires { IsSlot self.now.layout slot }
        ensures { result ≡ value_word self.now slot }
    {
        self.layout.words() as usize + (slot - 1) as usize
    }
}
