//! Nodes and the pool, read from the words of a closed tree.
ghost use Rattle.std.specs.Prelude.{◌≡◌};
ghost use Rattle.nm_edge.specs.Words.{IsSlot};
ghost use Rattle.nm_model.specs.Memory.{edge, in_pool, node};
ghost use Rattle.nm_model.specs.Reports.{counts};
ghost use Rattle.nm_tree.specs.Ended.{IsEndOf, end_of};

use nm_edge::{Edge, FIRST_SLOT, Key, Layout, Side};
use nm_model::memory::Node;
use nm_steps::Words;

// Returns the edge of a slot on that side.
fn edge(words: &Words, layout: Layout, slot: u32, side: Side) -> Edge
    requires ended { IsEndOf layout words.now.core }
    requires slot { IsSlot layout slot }
    ensures { (e : IsEndOf layout words.now.core)
        → result ≡ edge (end_of layout words.now.core e).memory slot side }
{
    let word = words.word(layout.edge(slot, side) as usize);
    Edge::of_word(word)
}

/// Returns the node of a slot: its four words.
pub fn node(words: &Words, layout: Layout, slot: u32) -> Node
    requires ended { IsEndOf layout words.now.core }
    requires slot { IsSlot layout slot }
    ensures { (e : IsEndOf layout words.now.core)
        → result ≡ node (end_of layout words.now.core e).memory slot }
{
    let key = words.word(layout.key(slot) as usize);
    let birth = words.word(layout.birth(slot) as usize);
    Node {
        key,
        left: edge(words, layout, slot, Side::Left),
        right: edge(words, layout, slot, Side::Right),
        birth,
    }
}

// Returns whether a slot is in the pool.
fn is_free(words: &Words, layout: Layout, slot: u32) -> bool
    requires ended { IsEndOf layout words.now.core }
    requires slot { IsSlot layout slot }
    ensures { (e : IsEndOf layout words.now.core)
        → result ≡ in_pool (end_of layout words.now.core e).memory slot }
{
    let place = layout.pool(slot);
    let word = words.word(place.word as usize);
    word & place.mask != 0
}

/// Returns the number of slots in the pool. No fixed slot is in it.
pub fn count_free(words: &Words, layout: Layout) -> u32
    requires ended { IsEndOf layout words.now.core }
    ensures { (e : IsEndOf layout words.now.core) → result ≡ (counts (end_of layout words.now.core e)).pool }
{
    let nodes = layout.nodes();
    let mut free = 0;
    for slot in FIRST_SLOT..nodes + 1 {
        if is_free(words, layout, slot) {
            free += 1;
        }
    }
    free
}
