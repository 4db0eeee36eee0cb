//! Parts of the tree that a search for all keys has still to visit.

/// A part of the tree that is still to be visited: the slot at its top, and how deep it may be.
#[derive(Clone, Copy)]
pub struct Subtree {
    pub slot: u32,
    pub depth: u32,
}
