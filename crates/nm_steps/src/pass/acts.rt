//! The operations on one word, each for any event that changes that word in this way, and a look at
//! a row of the pool. The other files below `pass` use the table only to make it, to split and join
//! seats, to read the epoch's word, and to end it.
//!
//! Each operation is generic over what it shows of the step, because the kit's operation takes its
//! rule as a type: a caller passes `Brand` for `D`, and its proof picks the event for that call. The
//! event as an argument is for that choice alone, so `let _ = event` is all that the body does with
//! it.
ghost use Rattle.std.specs.Prelude.{◌≡◌, ◌==◌, bit_and, bit_or};
ghost use prog.Atomic.{either};
ghost use Rattle.nm_steps.specs.Steps.{IsReadyFor, IsDone, Changes, IsBlind};
ghost use Rattle.nm_steps.specs.Rows.{CanPass, HasPassed};
ghost use Rattle.nm_steps.specs.Rules.{HasNotStored};
ghost use Rattle.nm_steps.specs.Values.{CanReach, CanReachLeft, HasPutValue, HasSeenLeft, HasSeenValue, MayStore};

use crate::pass::Shared;
use crate::view::{
    Does, Doing, LooksAtLeft, LooksAtValue, Passes, Passing, Slotted, StoresValue, WorkerSeat,
};
use nm_model::Event;

impl Shared {
    /// Reads the word, as a step for `event`.
    pub(crate) fn load<D: Doing>(&self, seat: &mut WorkerSeat, word: usize, event: &Event) -> u64
        requires pick { D.event ≡ event.now }
        requires ready { IsReadyFor self.now seat.old event.now word }
        requires changes { Changes event.now seat.old.me.0 (λ n. n) }
        ensures { IsDone seat.old seat.new event.now result }
    {
        let _ = event;
        self.table.shared.load::<Does<D>>(seat, word)
    }

    /// Stores `new` in the word, as a step for `event`.
    pub(crate) fn store<D: Doing>(
        &self,
        seat: &mut WorkerSeat,
        word: usize,
        new: u64,
        event: &Event,
    )
        requires pick { D.event ≡ event.now }
        requires ready { IsReadyFor self.now seat.old event.now word }
        requires changes { Changes event.now seat.old.me.0 (λ n. new) }
        requires blind { IsBlind event.now seat.old.me.0 }
        ensures { IsDone seat.old seat.new event.now new }
    {
        let _ = event;
        self.table.shared.store::<Does<D>>(seat, word, new);
    }

    /// Sets the bits of the mask in the word; returns the word before.
    pub(crate) fn mark<D: Doing>(
        &self,
        seat: &mut WorkerSeat,
        word: usize,
        mask: u64,
        event: &Event,
    ) -> u64
        requires pick { D.event ≡ event.now }
        requires ready { IsReadyFor self.now seat.old event.now word }
        requires changes { Changes event.now seat.old.me.0 (λ n. bit_or n mask) }
        ensures { IsDone seat.old seat.new event.now result }
    {
        let _ = event;
        self.table.shared.fetch_or::<Does<D>>(seat, word, mask)
    }

    /// Clears all bits of the word that are not in the mask; returns the word before.
    pub(crate) fn clear<D: Doing>(
        &self,
        seat: &mut WorkerSeat,
        word: usize,
        mask: u64,
        event: &Event,
    ) -> u64
        requires pick { D.event ≡ event.now }
        requires ready { IsReadyFor self.now seat.old event.now word }
        requires changes { Changes event.now seat.old.me.0 (λ n. bit_and n mask) }
        ensures { IsDone seat.old seat.new event.now result }
    {
        let _ = event;
        self.table.shared.fetch_and::<Does<D>>(seat, word, mask)
    }

    /// Replaces the word by `new` if it is `old`; returns the word before.
    pub(crate) fn exchange<D: Doing>(
        &self,
        seat: &mut WorkerSeat,
        word: usize,
        old: u64,
        new: u64,
        event: &Event,
    ) -> u64
        requires pick { D.event ≡ event.now }
        requires ready { IsReadyFor self.now seat.old event.now word }
        requires changes { Changes event.now seat.old.me.0 (λ n. either (n == old) new n) }
        ensures { IsDone seat.old seat.new event.now result }
    {
        let _ = event;
        self.table
            .shared
            .compare_exchange::<Does<D>>(seat, word, old, new)
    }

    /// Reads the word of a row of the pool. It counts as a lost claim of each slot before the first
    /// that the word shows as free, among `most` slots from `from` on.
    pub(crate) fn look_at_row<D: Passing>(
        &self,
        seat: &mut WorkerSeat,
        word: usize,
        from: u32,
        most: u32,
    ) -> u64
        requires first { D.from ≡ from }
        requires many { D.most ≡ most }
        requires can { CanPass self.now seat.old from most word }
        ensures { HasPassed seat.old seat.new from most result }
    {
        let _ = (from, most);
        self.table.shared.load::<Passes<D>>(seat, word)
    }

    /// Reads the value of a slot.
    pub(crate) fn look_at_value<D: Slotted>(
        &self,
        seat: &mut WorkerSeat,
        word: usize,
        slot: u32,
    ) -> u64
        requires pick { D.slot ≡ slot }
        requires can { CanReach self.now seat.old slot word }
        ensures { HasSeenValue seat.old seat.new slot result }
    {
        let _ = slot;
        self.table.shared.load::<LooksAtValue<D>>(seat, word)
    }

    /// Reads the word of the left edge of a slot.
    pub(crate) fn look_at_left<D: Slotted>(
        &self,
        seat: &mut WorkerSeat,
        word: usize,
        slot: u32,
    ) -> u64
        requires pick { D.slot ≡ slot }
        requires can { CanReachLeft self.now seat.old slot word }
        ensures { HasSeenLeft seat.old seat.new slot result }
    {
        let _ = slot;
        self.table.shared.load::<LooksAtLeft<D>>(seat, word)
    }

    /// Stores the value of a private slot.
    pub(crate) fn store_value<D: Slotted>(
        &self,
        seat: &mut WorkerSeat,
        word: usize,
        slot: u32,
        value: u64,
    )
        requires pick { D.slot ≡ slot }
        requires can { CanReach self.now seat.old slot word }
        requires may { MayStore seat.old slot }
        requires once { HasNotStored seat.old.me.0 }
        ensures { HasPutValue seat.old seat.new slot value }
    {
        let _ = slot;
        self.table.shared.store::<StoresValue<D>>(seat, word, value);
    }
}
