//! Scans of a range of keys.
ghost use Rattle.std.specs.Prelude.{◌≡◌};
ghost use Rattle.nm_edge.specs.declared.edge.Side.TheVariants.{Left, Right};
ghost use Rattle.nm_set.specs.Scanning.{AskedScan};

use crate::contents::Contents;
use crate::member::Member;
use nm_edge::Key;
use nm_tree::{CallFault, Scanned};

impl<V: Contents> Member<V> {
    /// Writes the keys of the set from `from` on that are below `below` into `out`, in ascending
    /// order, and returns how many, and the key at which to continue: `Tree::scan` of `nm_tree`.
    ///
    /// Errors: `Pinned`: the caller has pinned the worker; and those of the tree. After an error
    /// `out` is unchanged.
    pub fn scan(
        &mut self,
        from: Key,
        below: u64,
        out: &mut [u64],
        tries: u32,
    ) -> Result<Scanned, CallFault>
        ensures tree { self.new.tree ≡ self.old.tree }
        ensures says { AskedScan Right self.old.tree.layout tries from below out.old out.new
            self.old.worker self.new.worker result }
    {
        if self.sealed.worker.held().is_some() {
            return Err(CallFault::Pinned);
        }
        self.home
            .tree()
            .scan(&mut self.sealed.worker, from, below, out, tries)
    }

    /// Writes the keys of the set from `from` down that are not below `least` into `out`, in
    /// descending order, and returns how many, and the key at which to continue: `Tree::scan_back` of `nm_tree`.
    ///
    /// Errors: `Pinned`: the caller has pinned the worker; and those of the tree. After an error
    /// `out` is unchanged.
    pub fn scan_back(
        &mut self,
        from: Key,
        least: u64,
        out: &mut [u64],
        tries: u32,
    ) -> Result<Scanned, CallFault>
        ensures tree { self.new.tree ≡ self.old.tree }
        ensures says { AskedScan Left self.old.tree.layout tries from least out.old out.new
            self.old.worker self.new.worker result }
    {
        if self.sealed.worker.held().is_some() {
            return Err(CallFault::Pinned);
        }
        self.home
            .tree()
            .scan_back(&mut self.sealed.worker, from, least, out, tries)
    }
}
