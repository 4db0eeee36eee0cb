//! Edges: the slot of a node's child, and the two marks that freeze an edge.
ghost use Rattle.std.specs.Prelude.{◌≡◌, ◌≢◌, ◌/◌, ◌^◌, ◌<◌, ◌≤◌, ◌⊎◌, ◌↔◌, IfSome, IsNone, true};
ghost use Rattle.nm_edge.specs.Edges.{IsEdge, edge_in, is_to, is_word, other, tagged, to, unpacked, untagged, word_of};

use std::fmt;
use std::marker::Model;

/// A side of a node. A search for a key goes left if the key is less than the node's, else right.
#[derive(Clone, Copy, Debug, PartialEq, Eq)]
pub enum Side {
    Left,
    Right,
}

/// An edge of a node: the slot to which it leads, and its two marks (Natarajan and Mittal, section
/// 3.1).
///
/// The flag means that the leaf below the edge and the node above it are to be removed. The tag
/// means that only the node above it is. The null edge, to slot 0, has no mark. An edge is kept as
/// its word, so a word that was loaded is an edge without a test.
#[derive(Clone, Copy, PartialEq, Eq)]
pub struct Edge {
    word: u64,
}

impl Model for Edge {
    ghost use Rattle.std.specs.Prelude.{◌≡◌, true};
    ghost use Rattle.nm_edge.specs.Edges.{edge_in, is_word, word_of};
    ghost use Rattle.nm_edge.specs.Edges as spec;
    ghost use Rattle.nm_edge.specs.EdgeWords.{word_edge};

    ghost Value = { spec.Edge };

    ghost view = { λ e. edge_in e.word };

    ghost inverse = { λ e. record { word = word_of e } };

    ghost inverse_ok = { λ e fits i. record { word = word_edge e.word i } };

    ghost invariant = { λ e. is_word e.word ≡ true };
}

impl Edge {
    /// Returns the edge to a slot with these marks; `None` exactly for a null edge with a mark.
    pub fn new(slot: u32, flag: bool, tag: bool) -> Option<Edge>
        ensures edge { IfSome result
            (λ edge. edge ≡ record { slot = slot; flag = flag; tag = tag }) }
        ensures none { IsNone result ↔ ((slot ≡ 0) × ((flag ≡ true) ⊎ (tag ≡ true))) }
    {
        if slot == 0 && (flag || tag) {
            return None;
        }
        let marks = 2 * u64::from(tag) + u64::from(flag);
        Some(Edge {
            word: 4 * u64::from(slot) + marks,
        })
    }

    /// Returns the edge to a slot, with no mark.
    pub fn to(slot: u32) -> Edge
        ensures { result ≡ to slot }
    {
        Edge {
            word: 4 * u64::from(slot),
        }
    }

    /// Returns the slot to which the edge leads; 0 for the null edge.
    pub fn slot(self) -> u32
        ensures { result ≡ self.slot }
    {
        (self.word / 4) as u32
    }

    /// Returns whether the leaf below the edge and the node above it are to be removed.
    pub fn flag(self) -> bool
        ensures { result ≡ self.flag }
    {
        self.word % 2 == 1
    }

    /// Returns whether the node above the edge alone is to be removed.
    pub fn tag(self) -> bool
        ensures { result ≡ self.tag }
    {
        self.word / 2 % 2 == 1
    }

    /// Returns whether the edge leads to that slot and has no mark. An exchange expects such an
    /// edge.
    pub fn is_to(self, slot: u32) -> bool
        ensures { result ≡ is_to self slot }
    {
        self.word == 4 * u64::from(slot)
    }

    /// Returns the edge with its flag set.
    pub fn flagged(self) -> Edge
        requires { self.slot ≢ 0 }
        ensures { result ≡ record self { flag = true } }
    {
        Edge {
            word: self.word / 2 * 2 + 1,
        }
    }

    /// Returns the edge with its tag set. The null edge stays as it is.
    pub fn tagged(self) -> Edge
        ensures { result ≡ tagged self }
    {
        if self.word == 0 {
            return self;
        }
        Edge {
            word: self.word / 4 * 4 + 2 + self.word % 2,
        }
    }

    /// Returns the edge without its tag.
    pub fn untagged(self) -> Edge
        ensures { result ≡ untagged self }
    {
        Edge {
            word: self.word / 4 * 4 + self.word % 2,
        }
    }

    /// Returns the word of the edge, which is below 2^34: four times its slot, plus 2 for its tag
    /// and 1 for its flag.
    pub fn pack(self) -> u64
        ensures { result ≡ word_of self }
    {
        let Edge { word } = self;
        word
    }

    /// Returns the edge of a word that is known to be an edge's, without a test.
    pub fn of_word(word: u64) -> Edge
        requires { is_word word ≡ true }
        ensures { result ≡ edge_in word }
    {
        Edge { word }
    }

    /// Returns the edge of a word; `None` exactly if the slot would be above 2^32 - 1, or a null
    /// edge would have a mark.
    pub fn unpack(word: u64) -> Option<Edge>
        ensures edge { result ≡ unpacked word }
        ensures fits { IfSome result IsEdge }
        ensures none { IsNone result
            ↔ ((2 ^ 32 ≤ word / 4) ⊎ ((word ≡ 1) ⊎ (word ≡ 2) ⊎ (word ≡ 3))) }
    {
        if word / 4 > u64::from(u32::MAX) || (1..=3).contains(&word) {
            return None;
        }
        Some(Edge::of_word(word))
    }
}

/// Writes slot, flag and tag.
impl fmt::Debug for Edge {
    fn fmt<W: fmt::Write>(&self, f: &mut fmt::Formatter<W>) -> fmt::Result {
        f.debug_struct("Edge")
            .field("slot", &self.slot())
            .field("flag", &self.flag())
            .field("tag", &self.tag())
            .finish()
    }
}

impl Side {
    /// Returns the other side.
    pub fn other(self) -> Side
        ensures { result ≡ other self }
    {
        match self {
            Side::Left => Side::Right,
            Side::Right => Side::Left,
        }
    }
}
