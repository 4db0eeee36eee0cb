//! The report of a set that was made of keys, proved from the clauses of `nm_set` and the page
//! alone.
ghost use Rattle.std.specs.Prelude.{ℕ, ◌≡◌, ◌↔◌, [], IfSome, Contains};
ghost use Rattle.nm_edge.specs.Keys.{IsKey};
ghost use Rattle.nm_set.specs.Filling.{HoldsJust};

use nm_edge::Key;
use nm_set::{Member, Options, Report, Set, SetOfKeys};
use std::alloc::Global;

/// Makes a set of ascending keys for one worker, and closes it with its member. `None`: the set was
/// not made, or memory was refused. Proved: otherwise the report has each of these keys, and no
/// other.
pub fn keys_then_report(
    alloc: Global,
    nodes: u32,
    keys: &[Key],
    options: &Options,
) -> Option<Report>
    ensures { IfSome result
        (λ r. (k : ℕ) → IsKey k → Contains r.keys.items k ↔ Contains keys.now k) }
{
    let Ok(made) = Set::of_keys(alloc, nodes, 1, keys, options) else {
        return None;
    };
    let SetOfKeys {
        set,
        others,
        filler,
    } = made;
    drop(others);
    close_filled(set, filler, keys)
}

/// Closes a set with its only worker, whose member has filled it with these keys.
fn close_filled(set: Set, filler: Member, keys: &[Key]) -> Option<Report>
    requires new { set.kept ≡ [] }
    requires one { set.tree.layout.workers ≡ 1 }
    requires own { filler.tree ≡ set.tree }
    requires holds { HoldsJust filler.worker.pass.view.layout filler.worker.pass.view.past
        keys.now }
    ensures { IfSome result
        (λ r. (k : ℕ) → IsKey k → Contains r.keys.items k ↔ Contains keys.now k) }
{
    let _keys = keys;
    let mut set = set;
    filler.know_run();
    let Ok(()) = set.keep(filler) else {
        return None;
    };
    match set.close() {
        Ok(report) => Some(report),
        Err(_) => None,
    }
}
