//! Scans of a range of a map that write each key with its value.
ghost use Rattle.std.specs.Prelude.{◌≡◌, IfErr};
ghost use Rattle.nm_edge.specs.declared.edge.Side.TheVariants.{Left, Right};
ghost use Rattle.nm_calls.specs.MapScans.{HadEntries, keys_of};
ghost use Rattle.nm_set.specs.Scanning.{AskedScan};

use crate::contents::Values;
use crate::member::Member;
use nm_edge::Key;
use nm_tree::{CallFault, MapEntry, Scanned};

impl Member<Values> {
    /// Writes the entries of the map with a key from `from` on that is below `below` into `out`, in
    /// ascending order of the keys. It returns how many it wrote, and the key at which to continue,
    /// like `scan`: `Tree::scan_with_values` of `nm_tree`. Proved (`finds`): for each entry that it
    /// wrote there was a moment of this call at which the map had the key with this value.
    ///
    /// Errors: `Pinned`: the caller has pinned the worker; and those of the tree. After an error
    /// `out` is unchanged.
    pub fn scan_with_values(
        &mut self,
        from: Key,
        below: u64,
        out: &mut [MapEntry],
        tries: u32,
    ) -> Result<Scanned, CallFault>
        ensures tree { self.new.tree ≡ self.old.tree }
        ensures says { AskedScan Right self.old.tree.layout tries from below (keys_of out.old)
            (keys_of out.new) self.old.worker self.new.worker result }
        ensures finds { HadEntries self.old.worker.pass self.new.worker.pass out.new result }
        ensures kept { IfErr result (λ e. out.new ≡ out.old) }
    {
        if self.sealed.worker.held().is_some() {
            return Err(CallFault::Pinned);
        }
        self.home
            .tree()
            .scan_with_values(&mut self.sealed.worker, from, below, out, tries)
    }

    /// Writes the entries of the map with a key from `from` down that is not below `least` into `out`,
    /// in descending order of the keys. It returns like `scan_with_values`:
    /// `Tree::scan_back_with_values` of `nm_tree`.
    ///
    /// Errors: those of `scan_with_values`.
    pub fn scan_back_with_values(
        &mut self,
        from: Key,
        least: u64,
        out: &mut [MapEntry],
        tries: u32,
    ) -> Result<Scanned, CallFault>
        ensures tree { self.new.tree ≡ self.old.tree }
        ensures says { AskedScan Left self.old.tree.layout tries from least (keys_of out.old)
            (keys_of out.new) self.old.worker self.new.worker result }
        ensures finds { HadEntries self.old.worker.pass self.new.worker.pass out.new result }
        ensures kept { IfErr result (λ e. out.new ≡ out.old) }
    {
        if self.sealed.worker.held().is_some() {
            return Err(CallFault::Pinned);
        }
        self.home
            .tree()
            .scan_back_with_values(&mut self.sealed.worker, from, least, out, tries)
    }
}
