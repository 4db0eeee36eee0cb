//! The place of an edge: a node and a side.
ghost use Rattle.std.specs.Prelude.{◌≡◌, ◌^◌, ◌<◌, ◌≤◌, false};
ghost use Rattle.nm_edge.specs.Edges.{turn};

use crate::edge::{Edge, Side};
use std::marker::Model;

/// The place of an edge in a tree: a node and a side.
///
/// It is kept as one number: four times the node's slot, plus one on the right. The word of an
/// unmarked edge thus gives the two places of the node below it without a shift. A walk remembers
/// one word instead of a node and a side.
#[derive(Clone, Copy)]
pub struct EdgePlace {
    number: u32,
}

impl Model for EdgePlace {
    ghost use Rattle.std.specs.Prelude.{◌≡◌, true};
    ghost use Rattle.nm_edge.specs.EdgeWords.{place_number};
    ghost use Rattle.nm_edge.specs.Edges.{is_place, number_of, place_in};
    ghost use Rattle.nm_edge.specs.Edges as spec;

    ghost Value = { spec.EdgePlace };

    ghost view = { λ p. place_in p.number };

    ghost inverse = { λ p. record { number = number_of p } };

    ghost inverse_ok = { λ p fits i. record { number = place_number p.number fits i } };

    ghost invariant = { λ p. is_place p.number ≡ true };
}

impl EdgePlace {
    /// Returns the place of the edge of a node on a side.
    pub fn new(slot: u32, side: Side) -> EdgePlace
        requires { slot < 2 ^ 30 }
        ensures { result ≡ record { slot = slot; side = side } }
    {
        EdgePlace {
            number: 4 * slot + turn(side),
        }
    }

    /// Returns the place of an edge, on a side, of the node to which an unmarked edge leads.
    pub fn below(edge: Edge, side: Side) -> EdgePlace
        requires slot { edge.slot < 2 ^ 30 }
        requires flag { edge.flag ≡ false }
        requires tag { edge.tag ≡ false }
        ensures { result ≡ record { slot = edge.slot; side = side } }
    {
        EdgePlace {
            number: edge.pack() as u32 + turn(side),
        }
    }

    /// Returns the slot of the node.
    pub fn slot(self) -> u32
        ensures { result ≡ self.slot }
    {
        self.number / 4
    }

    /// Returns the side of the node.
    pub fn side(self) -> Side
        ensures { result ≡ self.side }
    {
        if self.number % 2 == 1 {
            Side::Right
        } else {
            Side::Left
        }
    }
}

/// Returns what a side adds to four times its node's slot.
fn turn(side: Side) -> u32
    ensures is { result ≡ turn side }
    ensures few { result ≤ 1 }
{
    match side {
        Side::Left => 0,
        Side::Right => 1,
    }
}
