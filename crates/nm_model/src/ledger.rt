//! What one worker's splices cut off: the retired nodes, those that were freed, and the queue of
//! the others.
ghost use Rattle.std.specs.Prelude.{◌≡◌, ◌+◌, ◌++◌, nat_lt, unwrap_or, [], ◌∷◌, length, take, IfOk, OnOk, OnErr};
ghost use Rattle.nm_model.specs.Queues.{with_label};
ghost use Rattle.nm_model.specs.Ledgers.{fresh_ledger, with_cut, labelled, with_freed};

use crate::queue::Queue;
use nm_edge::NodeId;
use std::alloc::{AllocError, Global};
use std::marker::Model;

/// A retired node in a queue.
#[derive(Clone, Copy, Debug, PartialEq, Eq)]
pub struct Queued {
    pub node: NodeId,
    /// The global epoch that its remover read after the splice (the retire epoch); `None` until it
    /// has read it.
    pub label: Option<u64>,
}

impl Queued {
    /// Returns whether the label plus 2 is above `seen`. An entry without a label counts as one
    /// with label 0.
    pub fn is_young(self, seen: u64) -> bool
        ensures { result ≡ nat_lt seen (unwrap_or self.label 0 + 2) }
    {
        let label = self.label.unwrap_or(0);
        seen < 2 || seen - 2 < label
    }

    /// Returns the entry with this label. An entry that has a label keeps it.
    pub fn with_label(self, label: u64) -> Queued
        ensures { result ≡ with_label label self }
    {
        Queued {
            node: self.node,
            label: Some(self.label.unwrap_or(label)),
        }
    }
}

/// A list of nodes, in order.
#[derive(Debug, Drop)]
pub struct Nodes {
    items: Vec<NodeId>,
}

impl Model for Nodes {
    ghost use Rattle.std.specs.Prelude.{List};
    ghost use Rattle.nm_edge.specs.declared.node.NodeId.{NodeId};

    ghost Value = { List NodeId };

    ghost view = { λ n. n.items.items };
}

/// What the splices of one worker cut off. In every run the retired nodes are the freed ones
/// followed by those of the queue.
#[derive(Debug, Drop)]
pub struct Ledger {
    /// The nodes that were cut off, in order.
    pub retired: Nodes,
    /// The nodes whose slots were given back to the pool, in order.
    pub freed: Nodes,
    /// The nodes that wait.
    pub queue: Queue,
}

impl Nodes {
    /// Wraps these nodes. Takes no memory.
    pub fn from_vec(nodes: Vec<NodeId>) -> Nodes
        ensures { result ≡ nodes.items }
    {
        Nodes { items: nodes }
    }

    /// Returns the nodes as a vector. Takes no memory.
    pub fn into_vec(self) -> Vec<NodeId>
        ensures { result.items ≡ self }
    {
        let Nodes { items } = self;
        items
    }

    /// Returns the nodes in order.
    pub fn as_slice(&self) -> &[NodeId]
        ensures { result.now ≡ self.now }
    {
        self.items.as_slice()
    }

    fn len(&self) -> usize
        ensures { result ≡ length self.now }
    {
        self.items.len()
    }

    fn truncate(&mut self, len: usize)
        ensures { self.new ≡ take len self.old }
    {
        self.items.truncate(len);
    }

    fn push(&mut self, node: NodeId) -> Result<(), AllocError>
        ensures ok { OnOk result (self.new ≡ self.old ++ node ∷ []) }
        ensures err { OnErr result (self.new ≡ self.old) }
    {
        self.items.push(node)?;
        Ok(())
    }

    fn extend(&mut self, nodes: &[NodeId]) -> Result<(), AllocError>
        ensures ok { OnOk result (self.new ≡ self.old ++ nodes.now) }
        ensures err { OnErr result (self.new ≡ self.old) }
    {
        self.items.extend_from_slice(nodes)
    }

    fn clone_in(&self, alloc: Global) -> Result<Nodes, AllocError>
        ensures { IfOk result (λ nodes. nodes ≡ self.now) }
    {
        Ok(Nodes {
            items: Vec::from_slice(alloc, self.as_slice())?,
        })
    }
}

impl Ledger {
    /// Returns the ledger of a worker that has cut nothing. Takes no memory.
    pub fn new(alloc: Global) -> Ledger
        ensures { result ≡ fresh_ledger }
    {
        Ledger {
            retired: Nodes::from_vec(Vec::new(alloc)),
            freed: Nodes::from_vec(Vec::new(alloc)),
            queue: Queue::new(alloc),
        }
    }

    /// Records that nodes were cut. They wait for their label.
    ///
    /// Errors: out of memory; the ledger is unchanged.
    pub fn retire(&mut self, nodes: &[NodeId]) -> Result<(), AllocError>
        ensures ok { OnOk result (self.new ≡ with_cut nodes.now self.old) }
        ensures err { OnErr result (self.new ≡ self.old) }
    {
        let before = self.retired.len();
        self.retired.extend(nodes)?;
        if self.queue.append(nodes).is_err() {
            self.retired.truncate(before);
            return Err(AllocError);
        }
        Ok(())
    }

    /// Gives each entry without a label this one.
    pub fn label(&mut self, label: u64)
        ensures { self.new ≡ labelled label self.old }
    {
        self.queue.label(label);
    }

    /// Records that the node at the front was freed.
    ///
    /// Errors: out of memory; the ledger is unchanged.
    pub fn free(&mut self, node: NodeId) -> Result<(), AllocError>
        ensures ok { OnOk result (self.new ≡ with_freed node self.old) }
        ensures err { OnErr result (self.new ≡ self.old) }
    {
        self.freed.push(node)?;
        self.queue.pop();
        Ok(())
    }

    /// Returns a copy.
    pub fn clone_in(&self, alloc: Global) -> Result<Ledger, AllocError>
        ensures { IfOk result (λ ledger. ledger ≡ self.now) }
    {
        Ok(Ledger {
            retired: self.retired.clone_in(alloc)?,
            freed: self.freed.clone_in(alloc)?,
            queue: self.queue.clone_in(alloc)?,
        })
    }
}
