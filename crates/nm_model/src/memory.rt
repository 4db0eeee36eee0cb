//! The words of nodes and of the pool, as plain data.
ghost use Rattle.std.specs.Prelude.{◌≡◌, ◌<◌, ◌^◌, true, IfOk};
ghost use Rattle.nm_model.specs.Step.{filled, is_edge};
ghost use Rattle.nm_model.specs.Reports.{set_key};
ghost use Rattle.nm_model.specs.Memory.{blank, is_leaf, leaf, fork, edge_of, with_edge, opening};

use crate::event::Field;
use nm_edge::{Edge, INFINITY_0, INFINITY_1, INFINITY_2, Key, Layout, Side};
use std::alloc::{AllocError, Global};

/// The four words of a node.
#[derive(Clone, Copy, Debug, PartialEq, Eq)]
pub struct Node {
    pub key: u64,
    pub left: Edge,
    pub right: Edge,
    pub birth: u64,
}

impl Node {
    /// Returns the content of a slot that was never used.
    pub fn blank() -> Node
        ensures { result ≡ blank }
    {
        Node::leaf(0)
    }

    /// Returns a fixed leaf.
    fn leaf(key: u64) -> Node
        ensures { result ≡ leaf key }
    {
        Node::fork(key, 0, 0)
    }

    /// Returns a fixed internal node.
    fn fork(key: u64, left: u32, right: u32) -> Node
        ensures { result ≡ fork key left right }
    {
        Node {
            key,
            left: Edge::to(left),
            right: Edge::to(right),
            birth: 0,
        }
    }

    /// Returns the edge on a side.
    pub fn edge(self, side: Side) -> Edge
        ensures { result ≡ edge_of self side }
    {
        match side {
            Side::Left => self.left,
            Side::Right => self.right,
        }
    }

    /// Returns the node with another edge on a side.
    pub fn with_edge(self, side: Side, edge: Edge) -> Node
        ensures { result ≡ with_edge self side edge }
    {
        match side {
            Side::Left => Node { left: edge, ..self },
            Side::Right => Node {
                right: edge,
                ..self
            },
        }
    }
}

impl Node {
    // Returns whether both edges are null.
    fn is_leaf(self) -> bool
        ensures { result ≡ is_leaf self }
    {
        self.left.slot() == 0 && self.right.slot() == 0
    }

    /// Returns the node's key if it is a leaf and its key is one of the set, not that of a fixed
    /// leaf.
    pub fn set_key(self) -> Option<Key>
        ensures { result ≡ set_key self }
    {
        let key = self.key;
        if self.is_leaf() { Key::new(key) } else { None }
    }

    /// Returns the node with a field stored. An edge is stored unmarked.
    pub fn filled(self, field: Field, value: u64) -> Node
        requires { is_edge field ≡ true → value < 2 ^ 32 }
        ensures { result ≡ filled self field value }
    {
        match field {
            Field::Key => Node { key: value, ..self },
            Field::Edge(side) => self.with_edge(side, Edge::to(value as u32)),
            Field::Birth => Node {
                birth: value,
                ..self
            },
        }
    }
}

/// Returns the nodes of the empty tree by slot, including those of the pool.
pub fn opening_nodes(alloc: Global, layout: Layout) -> Result<Vec<Node>, AllocError>
    ensures { IfOk result (λ nodes. nodes.items ≡ (opening layout).nodes) }
{
    let slots = layout.nodes() as usize + 1;
    let mut nodes = Vec::with_capacity(alloc, slots)?;
    nodes.push(Node::blank())?;
    nodes.push(Node::fork(INFINITY_2, 2, 5))?;
    nodes.push(Node::fork(INFINITY_1, 3, 4))?;
    nodes.push(Node::leaf(INFINITY_0))?;
    nodes.push(Node::leaf(INFINITY_1))?;
    nodes.push(Node::leaf(INFINITY_2))?;
    nodes.resize(slots, Node::blank())?;
    Ok(nodes)
}

/// Returns, by slot, whether the slot is in the pool: all slots above the fixed ones are.
pub fn opening_pool(alloc: Global, layout: Layout) -> Result<Vec<bool>, AllocError>
    ensures { IfOk result (λ pool. pool.items ≡ (opening layout).pool) }
{
    let mut pool = vec![in alloc; false; 6]?;
    pool.resize(layout.nodes() as usize + 1, true)?;
    Ok(pool)
}
