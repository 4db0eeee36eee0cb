//! The position of a walk (seek record), its chain, and its end.
ghost use Rattle.std.specs.Prelude.{◌≡◌, ◌≢◌, ◌<◌, ◌≤◌, ◌+◌, ◌||◌, true, false, length};
ghost use Rattle.nm_model.specs.Searches.{side_of};
ghost use Rattle.nm_walks.specs.Bounds.{chain_bound};
ghost use Rattle.nm_walks.specs.Walks.{onto, chain_onto};

use arrayvec::ArrayVec;
use nm_edge::{Edge, Side};

/// An internal node of a chain, and the side of its tagged edge.
#[derive(Clone, Copy, Debug, PartialEq, Eq)]
pub struct ChainEdge {
    pub slot: u32,
    pub side: Side,
}

impl Default for ChainEdge {
    fn default() -> Self {
        ChainEdge {
            slot: 0,
            side: Side::Left,
        }
    }
}

/// The largest number of internal nodes that a splice cuts off: those of a chain, and the parent
/// below it.
pub const CHAIN_BOUND: usize = 64;

/// The internal nodes from a successor down to the last one above its parent, which are connected
/// by tagged edges.
pub type ChainEdges = ArrayVec<ChainEdge, CHAIN_BOUND>;

/// The edge that a walk read last, from `parent` on `side`; and the last edge above it that was
/// read untagged, from `ancestor` on `above` to `successor`. (The seek record of Natarajan and
/// Mittal, section 3.2.)
#[derive(Clone, Copy, Debug, PartialEq, Eq)]
pub struct SeekRecord {
    pub ancestor: u32,
    pub above: Side,
    pub successor: u32,
    pub parent: u32,
    pub side: Side,
    pub edge: Edge,
}

/// The end of a walk: the edge of its seek record leads to a leaf with this key. In a radix tree,
/// the walk of an insert may also end above an internal node with this key, which does not have the
/// inserted key in its range.
#[derive(Clone, Copy, Debug, PartialEq, Eq)]
pub struct WalkEnd {
    pub seek_record: SeekRecord,
    pub key: u64,
}

/// The result of the first part of a walk, which uses unmarked edges only.
#[derive(Clone, Copy)]
pub(crate) enum Descent {
    /// The walk has ended at a leaf. In a radix tree, the walk of an insert may also have ended
    /// above an internal node without the key in its range.
    Ended(WalkEnd),
    /// The walk is at this seek record, this number of nodes below slot 2. The record's edge is
    /// marked, or the walk has looked at as many nodes as a walk may.
    Stopped(SeekRecord, u32),
}

/// Returns the side of a key at a node: left if the key is less than the node's.
pub(crate) fn side_at(key: u64, node: u64) -> Side
    ensures { result ≡ side_of key node }
{
    if key < node { Side::Left } else { Side::Right }
}

/// Returns whether this is the null edge, which every leaf has. The null edge has no mark, so one
/// comparison of its word is enough.
pub fn is_null(edge: Edge) -> bool
    ensures yes { result ≡ true → edge.slot ≡ 0 }
    ensures no { result ≡ false → edge.slot ≢ 0 }
{
    edge.is_to(0)
}

/// Returns whether the edge has a mark, by one test of its word.
pub fn is_marked(edge: Edge) -> bool
    ensures { result ≡ (edge.flag || edge.tag) }
{
    edge.flag() || edge.tag()
}

pub(crate) fn end_at(seek_record: &SeekRecord, key: u64) -> WalkEnd
    ensures seek_record { result.seek_record ≡ seek_record.now }
    ensures key { result.key ≡ key }
{
    WalkEnd {
        seek_record: *seek_record,
        key,
    }
}

/// Returns the seek record after the node that the edge leads to, which the walk leaves on `side`
/// by the edge `next`.
pub(crate) fn further(seek_record: SeekRecord, side: Side, next: Edge) -> SeekRecord
    ensures seek_record { result ≡ onto seek_record side next }
    ensures edge { result.edge ≡ next }
{
    let node = seek_record.edge.slot();
    if seek_record.edge.tag() {
        SeekRecord {
            parent: node,
            side,
            edge: next,
            ..seek_record
        }
    } else {
        SeekRecord {
            ancestor: seek_record.parent,
            above: seek_record.side,
            successor: node,
            parent: node,
            side,
            edge: next,
        }
    }
}

/// Extends the chain to the next node. Returns false if it would be too long.
pub(crate) fn extend(chain: &mut ChainEdges, seek_record: SeekRecord) -> bool
    ensures more { result ≡ true → chain.new.items ≡ chain_onto seek_record chain.old.items }
    ensures short { result ≡ true → length chain.new.items < chain_bound }
    ensures full { result ≡ false → chain_bound ≤ length chain.old.items + 1 }
    ensures tagged { result ≡ false → seek_record.edge.tag ≡ true }
{
    if !seek_record.edge.tag() {
        chain.clear();
        true
    } else if chain.len() + 1 >= CHAIN_BOUND {
        false
    } else {
        chain.push(ChainEdge {
            slot: seek_record.parent,
            side: seek_record.side,
        });
        true
    }
}
