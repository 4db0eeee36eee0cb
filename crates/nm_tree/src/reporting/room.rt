//! The memory of a report.
ghost use Rattle.std.specs.Prelude.{◌≡◌, IfOk};

use nm_edge::{Key, Layout};
use nm_model::keys::Subtree;
use std::alloc::{AllocError, Global};
use std::marker::Model;

/// All memory that the report on a tree needs: room for the keys and the slots of their leaves, and
/// for the parts of the tree that wait.
///
/// It is made before the tree is closed, so that nothing can fail afterwards. A contract sees it as
/// the layout of the tree.
#[derive(Drop)]
pub struct ReportRoom {
    pub(crate) layout: Layout,
    pub(crate) keys: Vec<Key>,
    pub(crate) leaves: Vec<u32>,
    pub(crate) waiting: Vec<Subtree>,
}

impl Model for ReportRoom {
    ghost use Rattle.std.specs.Prelude.{◌≡◌, ◌+◌, ◌≤◌, [], vec_capacity};
    ghost use Rattle.nm_edge.specs.Layouts.{Layout};

    ghost Value = { Layout };

    ghost view = { λ r. r.layout };

    ghost invariant = { λ r. (r.keys.items ≡ []) × (r.leaves.items ≡ [])
        × (r.waiting.items ≡ []) × (r.layout.nodes ≤ vec_capacity r.keys)
        × (r.layout.nodes ≤ vec_capacity r.leaves) × (r.layout.nodes + 1 ≤ vec_capacity r.waiting) };
}

impl ReportRoom {
    /// Returns the room for the report on a tree of that layout: for one key and one slot for each
    /// node, and one part for each node and one more.
    ///
    /// Errors: out of memory.
    pub fn new(alloc: Global, layout: Layout) -> Result<ReportRoom, AllocError>
        ensures { IfOk result (λ room. room ≡ layout) }
    {
        let nodes = layout.nodes() as usize;
        let keys = Vec::with_capacity(alloc, nodes)?;
        let leaves = Vec::with_capacity(alloc, nodes)?;
        let waiting = Vec::with_capacity(alloc, nodes + 1)?;
        Ok(ReportRoom {
            layout,
            keys,
            leaves,
            waiting,
        })
    }
}
