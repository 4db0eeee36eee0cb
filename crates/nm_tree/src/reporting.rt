//! The report on the words of a closed tree: the keys of the set, and the numbers of free and of
//! reached slots.
ghost use Rattle.std.specs.Prelude.{◌≡◌, ◌↔◌, ℕ, ◌<◌, AllPairs, Contains};
ghost use Rattle.nm_model.specs.Memory.{infinity_0};
ghost use Rattle.nm_model.specs.Reports.{counts, keys};
ghost use Rattle.nm_model.specs.Acts.{InSet};
ghost use Rattle.nm_tree.specs.Ended.{IsEndOf, end_of};
ghost use Rattle.nm_tree.specs.MapReports.{AreLeavesOf};

mod reading;
mod room;
mod walk;

use nm_edge::{FIRST_SLOT, Key};
use nm_model::keys::Subtree;
use nm_steps::Words;
use reading::count_free;
pub use room::ReportRoom;
use walk::walk;

/// What the words of a closed tree hold.
#[derive(Debug, Drop)]
pub struct Found {
    /// The keys of the set, ascending: those of the reached leaves, including flagged ones, without
    /// the three infinite keys.
    pub keys: Vec<Key>,
    /// The slot of the leaf of each key, in the same order.
    pub leaves: Vec<u32>,
    /// The number of slots in the pool.
    pub free: u32,
    /// The number of slots that are reached from the root, except the five fixed ones.
    pub reached: u32,
}

/// Reads the words of a closed tree; returns the keys of the set and the slots of their leaves, the
/// number of free slots, and the number of reached ones.
///
/// Takes no memory besides the room, and cannot fail. It uses a stack in place of recursion, so the
/// tree may be as deep as it has nodes.
pub fn read(words: &Words, room: ReportRoom) -> Found
    requires { IsEndOf room words.now.core }
    ensures keys { (e : IsEndOf room words.now.core)
        → result.keys.items ≡ keys (end_of room words.now.core e) }
    ensures set { (e : IsEndOf room words.now.core) (k : ℕ) → Contains result.keys.items k
        ↔ InSet (end_of room words.now.core e).memory k × (k < infinity_0) }
    ensures ascending { AllPairs (λ j k. j < k) result.keys.items }
    ensures leaves { (e : IsEndOf room words.now.core)
        → AreLeavesOf room (end_of room words.now.core e).memory result.keys.items
        result.leaves.items }
    ensures free { (e : IsEndOf room words.now.core)
        → result.free ≡ (counts (end_of room words.now.core e)).pool }
    ensures reached { (e : IsEndOf room words.now.core)
        → result.reached ≡ (counts (end_of room words.now.core e)).reached }
{
    let ReportRoom {
        layout,
        mut keys,
        mut leaves,
        mut waiting,
    } = room;
    waiting
        .push(Subtree {
            slot: 1,
            depth: layout.nodes(),
        })
        .unwrap();
    let visited = walk(words, layout, &mut keys, &mut leaves, &mut waiting);
    Found {
        keys,
        leaves,
        free: count_free(words, layout),
        reached: visited.saturating_sub(FIRST_SLOT - 1),
    }
}
