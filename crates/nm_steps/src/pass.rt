//! The shared table with its layout, and one worker's seat with what its log says of epochs.
//!
//! The table is a private field, which only the modules below this one can use. All other code
//! takes steps by `join` and by the operations of `acts`, each of which is one operation on one
//! word.
ghost use Rattle.std.specs.Prelude.{◌≡◌, ◌<◌, ◌+◌, ℕ, true, false, length};
ghost use Rattle.nm_edge.specs.Layouts.{IsLayout};
ghost use Rattle.nm_model.specs.Knowledge.{is_private};
ghost use Rattle.nm_order.specs.Hands.{IsPooled};
ghost use Rattle.nm_steps.specs.Rules.{StoredBefore, knowledge};
ghost use Rattle.nm_steps.specs.Steps.{IsOfRun, HasSeen};
ghost use Rattle.nm_steps.specs.Values.{HasValues};

mod acts;
mod closing;
mod joining;
mod making;
mod notes;

use crate::view::{Law, View, WorkerSeat};
use atomic_table::Table;
pub use closing::Words;
use nm_edge::Layout;
use nm_model::Brief;
pub use notes::Note;
use std::alloc::Global;
use std::marker::Model;

/// The words of a tree, which all its workers share.
#[derive(Drop)]
pub struct Shared {
    table: Table<(), View, Layout, Law, Global>,
    pub(crate) layout: Layout,
    values: bool,
}

impl Model for Shared {
    ghost use Rattle.nm_steps.specs.Steps.{TreeView};
    ghost use Rattle.nm_steps.specs.Values.{IsMade};

    ghost Value = { TreeView };

    ghost view = { λ s. record { table = s.table.shared.table_id; layout = s.layout } };

    ghost invariant = { λ s. IsMade s.table.shared.table_id s.table.shared.key s.layout s.values };
}

/// One worker: its seat, its number, the index of the word of its announcement, and what its log
/// says of epochs.
#[derive(Drop)]
pub struct Pass {
    pub(crate) seat: WorkerSeat,
    pub(crate) number: u32,
    pub(crate) announcement_word: u32,
    pub(crate) brief: Brief,
}

impl Model for Pass {
    ghost use Rattle.nm_steps.specs.Steps.{PassView, Tied};

    ghost Value = { PassView };

    ghost view = { λ p. record { table = p.seat.table_id; seat = p.seat.id; view = p.seat.me.0 } };

    ghost invariant = { λ p. Tied p.seat p.number p.announcement_word p.brief };
}

impl Shared {
    /// Returns the sizes of the tree.
    pub fn layout(&self) -> Layout
        ensures { result ≡ self.now.layout }
    {
        self.layout
    }

    /// Returns whether the table has a value for each slot.
    pub fn has_values(&self) -> bool
        ensures yes { result ≡ true → HasValues self.now }
        ensures no { result ≡ false → self.now.table.slots ≡ 0 }
    {
        self.values
    }
}

impl Pass {
    /// Returns the worker's number, which is below the number of workers.
    pub fn number(&self) -> u32
        ensures number { result ≡ self.now.view.number }
        ensures below { result < self.now.view.layout.workers }
    {
        self.number
    }

    /// Returns the epoch at which the worker is pinned, or `None` if it is not pinned.
    pub fn pinned(&self) -> Option<u64>
        ensures { result ≡ (knowledge self.now.view).brief.pin }
    {
        self.brief.pin
    }

    /// Proof only: establishes that the pass's log is its worker's part of some run of an ordered
    /// core, in which the worker has not resigned. Each law of such parts holds of the log. What
    /// the pass has seen is one such run, so each law of runs holds of it. No run-time effect.
    pub fn know_run(&self)
        ensures run { IsOfRun self.now.view.layout self.now.view.number self.now.view.log }
        ensures seen { HasSeen self.now.view }
        ensures fits { IsLayout self.now.view.layout }
    {
        let _brief = self.brief;
    }

    /// Proof only: establishes that the worker's log had no more entries at any of its stores of a
    /// value than it has now. No run-time effect.
    pub fn know_stores(&self)
        ensures { StoredBefore self.now.view.number (length self.now.view.log + 1)
            self.now.view.stores }
    {
        let _brief = self.brief;
    }

    /// Proof only: establishes that each of the worker's private slots is one of 6 to `nodes`. No
    /// run-time effect.
    pub fn know_pooled_slots(&self)
        ensures { (x : ℕ) → is_private (knowledge self.now.view) x ≡ true
            → IsPooled self.now.view.layout x }
    {
        let _brief = self.brief;
    }
}
