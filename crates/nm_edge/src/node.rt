//! Nodes by slot and birth.

/// The greatest birth (generation), and the greatest epoch: 2^62. A slot with this birth is
/// exhausted, and is never put to use again.
pub const LAST_NUMBER: u64 = 1 << 62;

/// A node: its slot, and how often that slot had been put to use when the node was made.
///
/// A slot is used again and again, and each use raises its birth (generation) by one. A `NodeId`
/// thus names one node for ever.
#[derive(Clone, Copy, Debug, PartialEq, Eq)]
pub struct NodeId {
    /// The number of the slot. 0 is no slot.
    pub slot: u32,
    /// 0 for the five fixed nodes, else 1 for the first use of the slot, 2 for the second and so
    /// on, up to 2^62.
    pub birth: u64,
}

/// No node: slot 0 with birth 0.
impl Default for NodeId {
    fn default() -> Self {
        NodeId { slot: 0, birth: 0 }
    }
}
