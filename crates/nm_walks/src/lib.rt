//! Steps that the worker's own log allows, the walk for a key, cleanups, and the link of a new
//! leaf, over a pass and a queue (the external search tree of Natarajan and Mittal, PPoPP 2014).
#![tactic(auto, using(nm_steps::proofs::Seeing::seen_all))]

mod cleaning;
mod cutting;
mod growing;
mod labelling;
mod looking;
mod making;
mod marking;
mod seek_record;
mod unmarked_seek;
mod walking;
mod workspace;

pub use cleaning::cleanup;
pub use cutting::{Kept, choose};
pub use growing::{claim_new_nodes, give_back, grow};
pub use looking::{Onward, look_birth, look_edge, read_node};
pub use making::{NewNodes, claim, fill_leaf, give};
pub use marking::{flag, tag};
pub use seek_record::{
    CHAIN_BOUND, ChainEdge, ChainEdges, SeekRecord, WalkEnd, is_marked, is_null,
};
pub use walking::{Stop, find, reach, seek};
pub use workspace::{CUT_BOUND, CutNodes, Workspace};
