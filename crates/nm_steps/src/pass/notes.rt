//! Notes, by which one worker shows another what it has seen.
ghost use Rattle.std.specs.Prelude.{◌≡◌};
ghost use Rattle.nm_steps.specs.Rules.{Extends, ExtendsStores};
ghost use Rattle.nm_steps.specs.Steps.{IsOf, HasHeard, HasSeenAllOf, IsNoteOf};
ghost use Rattle.nm_steps.specs.Values.{HasSeenStores, HasValues};

use crate::pass::{Pass, Shared};
use crate::view::{Ties, View, WorkerSeat};
use atomic_table::{Join, Split};
use std::marker::Model;

/// What a pass had seen when the note was made (a happens-before stamp). It may be sent to another
/// thread. Dropping it does nothing.
#[derive(Drop)]
pub struct Note {
    seat: WorkerSeat,
}

impl Model for Note {
    ghost use Rattle.std.specs.Prelude.{◌≡◌, true, []};
    ghost use Rattle.nm_steps.specs.Steps.{Notice};

    ghost Value = { Notice };

    ghost view = { λ n. record {
      table = n.seat.table_id;
      past = n.seat.me.0.past;
      stores = n.seat.me.0.stores;
    } };

    ghost invariant = { λ n. (n.seat.me.0.resigned ≡ true) × (n.seat.me.1 ≡ []) };
}

/// A view stays as it is, and a view without a worker has seen what it has seen.
pub(crate) struct WriteDown;

impl Split<View> for WriteDown {
    ghost use Rattle.nm_steps.specs.Rules.{noted_down};

    ghost left = { λ v. v };

    ghost right = { noted_down };
}

/// A view has heard what another one has seen.
pub(crate) struct Hear;

impl Join<View> for Hear {
    ghost use Rattle.nm_steps.specs.Rules.{informed, nobody};

    ghost both = { informed };

    ghost spent = { nobody };
}

impl Shared {
    /// Makes a note of what the pass has seen. It is no step, and no log records it.
    pub fn note(&self, pass: &mut Pass) -> Note
        requires { IsOf self.now pass.old }
        ensures same { pass.new ≡ pass.old }
        ensures note { IsNoteOf pass.old result }
    {
        Note {
            seat: self.table.shared.split_seat::<WriteDown>(&mut pass.seat),
        }
    }

    /// Lets the pass hear a note: from now on, what it has seen of turns and of stores extends what
    /// the note has seen and what the pass itself had seen. So in the one run, all later turns of the
    /// pass come after all turns that the note's pass had seen. It reads the epoch's word once. This
    /// is no step, and no log records it.
    pub fn hear(&self, pass: &mut Pass, note: Note)
        requires own { IsOf self.now pass.old }
        requires table { note.table ≡ self.now.table }
        ensures same { HasHeard pass.old pass.new }
        ensures past { HasSeenAllOf pass.new pass.old }
        ensures heard { Extends pass.new.view.past note.past }
        ensures stores { ExtendsStores pass.new.view.stores pass.old.view.stores }
        ensures heard_stores { ExtendsStores pass.new.view.stores note.stores }
        ensures values { HasValues self.now → HasSeenStores pass.new.view }
    {
        let Note { seat: told } = note;
        self.table.shared.join_seat::<Hear>(&mut pass.seat, told);
        let epoch = self.layout.epoch() as usize;
        self.table.shared.load::<Ties>(&mut pass.seat, epoch);
    }
}
