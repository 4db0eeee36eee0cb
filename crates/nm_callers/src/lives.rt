//! The life of a map's worker, proved from the clauses of its calls alone.
ghost use Rattle.std.specs.Prelude.{take};
ghost use Rattle.nm_callers.specs.Lives.{FreesByCollections, HandsOutAll};

use nm_edge::Key;
use nm_set::{MapMember, Options, Reclaimed};

/// Law: what a worker of a map has freed in its life, by its log, are the nodes of its collections, each
/// once, if each other call that it made frees no node. A managed call of a map says so (`frees`). So each
/// value whose leaf the worker freed was written by one of these collections.
pub fn freed_nodes_were_handed_out()
    ensures { FreesByCollections }
{}

/// Inserts a key with a value, removes another one, and reclaims values into `out`, whatever the first two
/// calls return. Proved: the worker has freed no node but those of the leaves whose values were written,
/// and of the internal nodes beside them.
pub fn work_then_reclaim(
    member: &mut MapMember,
    key: Key,
    value: u64,
    other: Key,
    out: &mut [u64],
    options: &Options,
) -> Reclaimed
    ensures { HandsOutAll member.old.worker member.new.worker (take result.handed.values out.new) }
{
    let mut found = 0;
    let mut taken = 0;
    let _inserted = member.insert(key, value, &mut found, options);
    let _removed = member.remove(other, &mut taken, options);
    member.reclaim(out)
}
