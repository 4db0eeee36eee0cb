//! Managed calls of a map that remove the least or the greatest key with its value.
ghost use Rattle.std.specs.Prelude.{◌≡◌, ◌<◌, ◌≤◌};
ghost use Rattle.nm_edge.specs.Keys.{IsKey};
ghost use Rattle.nm_tree.specs.Answers.{FreesNone};
ghost use Rattle.nm_set.specs.Maps.{PopsValue};
ghost use Rattle.nm_set.specs.Popping.{SaysManagedPop, SaysManagedPopOf};

use crate::contents::Values;
use crate::managed::Options;
use crate::member::Member;
use nm_edge::Key;
use nm_tree::{CallFault, End};

impl Member<Values> {
    /// Removes the least key of the map, and returns it; `None` if the map is empty. It is
    /// `Member::pop_first`, and writes the value that the key had to `taken`. Proved (`takes`): the
    /// map had the key with this value at a moment of the call. The value comes back by `reclaim`
    /// too. Proved (`frees`): it frees no node.
    ///
    /// Errors: as of `Member::pop_first`.
    pub fn pop_first(
        &mut self,
        taken: &mut u64,
        options: &Options,
    ) -> Result<Option<Key>, CallFault>
        ensures tree { self.new.tree ≡ self.old.tree }
        ensures says { SaysManagedPop ◌<◌ self.old.tree options.now self.old.worker self.new.worker
            result }
        ensures takes { PopsValue self.old.worker.pass self.new.worker.pass taken.new result }
        ensures frees { FreesNone self.old.worker self.new.worker }
    {
        self.know_run();
        self.pop(End::First, true, taken, options)
    }

    /// Removes the greatest key of the map, like `pop_first`.
    pub fn pop_last(&mut self, taken: &mut u64, options: &Options) -> Result<Option<Key>, CallFault>
        ensures tree { self.new.tree ≡ self.old.tree }
        ensures says { SaysManagedPop (λ j key. key < j) self.old.tree options.now self.old.worker
            self.new.worker result }
        ensures takes { PopsValue self.old.worker.pass self.new.worker.pass taken.new result }
        ensures frees { FreesNone self.old.worker self.new.worker }
    {
        self.know_run();
        self.pop(End::Last, true, taken, options)
    }

    /// Removes the least key of the map, if it is below `below`, like `Member::pop_first_below`,
    /// and writes its value.
    pub fn pop_first_below(
        &mut self,
        below: u64,
        taken: &mut u64,
        options: &Options,
    ) -> Result<Option<Key>, CallFault>
        ensures tree { self.new.tree ≡ self.old.tree }
        ensures says { SaysManagedPopOf (λ j. IsKey j × (j < below)) ◌<◌ self.old.tree options.now
            self.old.worker self.new.worker result }
        ensures takes { PopsValue self.old.worker.pass self.new.worker.pass taken.new result }
        ensures frees { FreesNone self.old.worker self.new.worker }
    {
        self.know_run();
        self.pop(End::FirstBelow(below), true, taken, options)
    }

    /// Removes the greatest key of the map, if it is not below `from`, like
    /// `Member::pop_last_from`, and writes its value.
    pub fn pop_last_from(
        &mut self,
        from: u64,
        taken: &mut u64,
        options: &Options,
    ) -> Result<Option<Key>, CallFault>
        ensures tree { self.new.tree ≡ self.old.tree }
        ensures says { SaysManagedPopOf (λ j. IsKey j × (from ≤ j)) (λ j key. key < j) self.old.tree
            options.now self.old.worker self.new.worker result }
        ensures takes { PopsValue self.old.worker.pass self.new.worker.pass taken.new result }
        ensures frees { FreesNone self.old.worker self.new.worker }
    {
        self.know_run();
        self.pop(End::LastFrom(from), true, taken, options)
    }
}
