//! The position of a walk that has come by unmarked edges only.
ghost use Rattle.std.specs.Prelude.{◌≡◌, ◌<◌, ◌^◌, ◌||◌, false};
ghost use Rattle.nm_walks.specs.Walks.{begin, onto};

use crate::seek_record::{SeekRecord, is_marked};
use nm_edge::{Edge, EdgePlace, Side};
use std::marker::Model;

/// The seek record of a walk that has come by unmarked edges only, so that its successor is its
/// parent. The place of the edge that it read last, and that of the edge above it, is one word
/// each, so a walk moves few words per node.
#[derive(Clone, Copy)]
pub(crate) struct UnmarkedSeek {
    above: EdgePlace,
    at: EdgePlace,
    edge: Edge,
}

impl Model for UnmarkedSeek {
    ghost use Rattle.nm_walks.specs.Walks.{seek_at};
    ghost use Rattle.nm_walks.specs.declared.seek_record.SeekRecord as spec;

    ghost Value = { spec.SeekRecord };

    ghost view = { λ t. seek_at t.above t.at t.edge };

    ghost inverse = { λ s. record {
      above = record { slot = s.ancestor; side = s.above };
      at = record { slot = s.parent; side = s.side };
      edge = s.edge;
    } };

    ghost inverse_ok = { λ t fits i. t };
}

impl UnmarkedSeek {
    /// Returns the position at the left edge of slot 2.
    pub(crate) fn first(edge: Edge) -> UnmarkedSeek
        ensures { result ≡ begin edge }
    {
        UnmarkedSeek {
            above: EdgePlace::new(1, Side::Left),
            at: EdgePlace::new(2, Side::Left),
            edge,
        }
    }

    /// Returns whether the edge has a mark.
    pub(crate) fn is_marked(self) -> bool
        ensures { result ≡ (self.edge.flag || self.edge.tag) }
    {
        is_marked(self.edge)
    }

    /// Returns the slot of the node that the edge leads to; a tree has fewer than 2^30. The lower
    /// half of the word is enough for that. If the edge is known to have no mark, that half is four
    /// times the slot, by which the node's words are numbered, so a compiler need not compute it.
    pub(crate) fn slot(self) -> u32
        requires { self.edge.slot < 2 ^ 30 }
        ensures { result ≡ self.edge.slot }
    {
        self.edge.pack() as u32 / 4
    }

    /// Returns the position one node further: the edge has no mark, and the walk leaves the node on
    /// `side` by the edge `next`.
    pub(crate) fn further(self, side: Side, next: Edge) -> UnmarkedSeek
        requires slot { self.edge.slot < 2 ^ 30 }
        requires flag { self.edge.flag ≡ false }
        requires tag { self.edge.tag ≡ false }
        ensures seek_record { result ≡ onto self side next }
        ensures edge { result.edge ≡ next }
    {
        UnmarkedSeek {
            above: self.at,
            at: EdgePlace::below(self.edge, side),
            edge: next,
        }
    }

    /// Returns the same position as a full seek record.
    pub(crate) fn seek_record(self) -> SeekRecord
        ensures { result ≡ self }
    {
        let parent = self.at.slot();
        SeekRecord {
            ancestor: self.above.slot(),
            above: self.above.side(),
            successor: parent,
            parent,
            side: self.at.side(),
            edge: self.edge,
        }
    }
}
