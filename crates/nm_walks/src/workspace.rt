//! The workspace of a worker's calls.
ghost use Rattle.std.specs.Prelude.{◌≡◌};

use crate::seek_record::ChainEdges;
use arrayvec::ArrayVec;
use nm_edge::{NodeId, Placement};

/// The largest number of nodes that a splice cuts off: `CHAIN_BOUND` internal ones, and the flagged
/// leaf beside each.
pub const CUT_BOUND: usize = 128;

/// The nodes that a splice cuts off.
pub type CutNodes = ArrayVec<NodeId, CUT_BOUND>;

/// What a worker's calls use besides its pass: where it looks for free slots, and the buffers of
/// its walks and cleanups. The buffers are made once, because filling them costs more than a walk.
///
/// `insert`, `delete` and `finish` do not use the previous contents of the chain and of the nodes;
/// `cleanup` uses the chain of the last walk.
#[derive(Drop)]
pub struct Workspace {
    /// The slots at which the worker looks for a free one.
    pub placement: Placement,
    /// The chain that the last walk remembers.
    pub chain: ChainEdges,
    /// The nodes that the last cleanup tried to cut off.
    pub nodes: CutNodes,
    /// The value that the last insert of a key found under the key, if it found the key in a table
    /// with values. It is here, and no parameter, so that calls of a set pay nothing for it.
    pub found: u64,
}

impl Workspace {
    /// Makes the workspace of a worker with this placement.
    pub fn new(placement: Placement) -> Self
        ensures fit { result.placement ≡ placement }
    {
        Workspace {
            placement,
            chain: ChainEdges::new(),
            nodes: CutNodes::new(),
            found: 0,
        }
    }
}
