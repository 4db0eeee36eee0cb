//! Notes of what a worker has seen, for other workers.
ghost use Rattle.std.specs.Prelude.{◌≡◌};
ghost use Rattle.nm_steps.specs.Rules.{Extends, ExtendsStores};
ghost use Rattle.nm_steps.specs.Steps.{IsOf, IsNoteOf, HasHeard, HasSeenAllOf};
ghost use Rattle.nm_steps.specs.Values.{HasSeenStores, HasValues};
ghost use Rattle.nm_tree.specs.Workers.{IsBetweenCalls};

use crate::tree::Tree;
use crate::worker::Worker;
use nm_steps::Note;

impl Tree {
    /// Makes a note of all that the worker has seen: its own calls, and those of others that
    /// happened before them, with the values that were stored. The note may go to another thread, in
    /// a message or in any other way. A note that is dropped has no effect. It may be made at any
    /// time, and the worker is unchanged. Takes no step, no lock and no memory, and writes no word.
    ///
    /// Calls of workers that have exchanged no notes have an order, but their callers do not know
    /// it. `hear` makes it known.
    pub fn note(&self, worker: &mut Worker) -> Note
        requires own { IsOf self.now worker.old.pass }
        ensures same { worker.new ≡ worker.old }
        ensures note { IsNoteOf worker.old.pass result }
    {
        self.shared.note(&mut worker.pass)
    }

    /// Hears a note of a worker of this tree: all that this worker is asked from then on happens
    /// after all that the other one had done when the note was made. So if an insert had returned
    /// true before the note, its key is found, unless a delete of it has won a flag in what this
    /// worker has then seen.
    ///
    /// It may be called at any time, even if the worker is pinned or a key is pending. It reads the
    /// epoch once, which is in no log. Takes no lock and no memory, and writes no word.
    pub fn hear(&self, worker: &mut Worker, note: Note)
        requires own { IsOf self.now worker.old.pass }
        requires table { note.table ≡ self.now.table }
        ensures same { HasHeard worker.old.pass worker.new.pass }
        ensures past { HasSeenAllOf worker.new.pass worker.old.pass }
        ensures heard { Extends worker.new.pass.view.past note.past }
        ensures stores { ExtendsStores worker.new.pass.view.stores worker.old.pass.view.stores }
        ensures heard_stores { ExtendsStores worker.new.pass.view.stores note.stores }
        ensures values { HasValues self.now → HasSeenStores worker.new.pass.view }
        ensures rest { worker.new ≡ record worker.old { pass = worker.new.pass } }
        ensures between { IsBetweenCalls worker.new }
    {
        self.shared.hear(&mut worker.pass, note);
    }
}
