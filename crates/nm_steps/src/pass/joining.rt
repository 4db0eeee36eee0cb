//! The join of two passes into one.
ghost use Rattle.nm_steps.specs.Rules.{ExtendsStores, knowledge};
ghost use Rattle.nm_steps.specs.Steps.{IsOf, HasEmptyHands, HasJoined, HasSeenAllOf};
ghost use Rattle.nm_steps.specs.Ties.{StandsInRun};
ghost use Rattle.nm_steps.specs.Values.{HasSeenStores, HasValues};

use crate::pass::{Pass, Shared};
use crate::view::{Ties, View};
use atomic_table::Join;

/// The first view represents the workers of both, and the join is in both logs.
pub(crate) struct Unite;

impl Join<View> for Unite {
    ghost use Rattle.nm_steps.specs.Rules.{joining_view, nobody};

    ghost both = { joining_view };

    ghost spent = { nobody };
}

impl Shared {
    /// Joins two passes, in one step that is in both logs. The first pass represents the workers of
    /// both, and takes over the ledgers that the second one's worker holds. That worker resigns; it
    /// must have no private slot and no cut without a label. The step reads the epoch's word and
    /// changes no word. What the result has seen of turns and of stores extends what both had seen.
    /// Each worker's number
    /// is in the result at most once, so no ledger was held by both passes.
    pub fn join(&self, pass: Pass, other: Pass) -> Pass
        requires first { IsOf self.now pass }
        requires second { IsOf self.now other }
        requires hands { HasEmptyHands (knowledge other.view) }
        ensures joined { HasJoined pass other result }
        ensures run { StandsInRun result.view }
        ensures past { HasSeenAllOf result pass }
        ensures heard { HasSeenAllOf result other }
        ensures stores { ExtendsStores result.view.stores pass.view.stores }
        ensures heard_stores { ExtendsStores result.view.stores other.view.stores }
        ensures values { HasValues self.now → HasSeenStores result.view }
    {
        let Pass {
            mut seat,
            number,
            announcement_word,
            brief,
        } = pass;
        let Pass {
            seat: spent,
            number: _,
            announcement_word: _,
            brief: _,
        } = other;
        self.table.shared.join_seat::<Unite>(&mut seat, spent);
        let epoch = self.layout.epoch() as usize;
        self.table.shared.load::<Ties>(&mut seat, epoch);
        Pass {
            seat,
            number,
            announcement_word,
            brief,
        }
    }
}
