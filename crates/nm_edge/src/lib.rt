//! The words of the tree: keys, edges, the two sides of a node, nodes by slot and birth, the sizes
//! of a tree, and the search for a free slot.
#![tactic(auto)]

mod edge;
mod edge_place;
mod key;
mod laws;
mod layout;
mod node;
mod placement;
mod ranges;

pub use edge::{Edge, Side};
pub use edge_place::EdgePlace;
pub use key::{INFINITY_0, INFINITY_1, INFINITY_2, Key, MOST_KEY};
pub use laws::{
    covers_is_the_range, fields_are_apart, packing_gives_the_word, pool_places_are_apart,
    unpacking_gives_the_edge,
};
pub use layout::{
    FIRST_SLOT, LEAST_NODES, Layout, LayoutError, MOST_NODES, MOST_SPACED_NODES, MOST_WORKERS,
    PoolPlace, SLOTS_OF_A_ROW, place_in_row,
};
pub use node::{LAST_NUMBER, NodeId};
pub use placement::{Fit, Placement};
pub use ranges::{covers, parting};

#[cfg(test)]
mod tests;
