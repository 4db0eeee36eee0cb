//! A walk over all nodes of a closed tree, from its root.
ghost use Rattle.std.specs.Prelude.{◌≡◌, ◌+◌, ◌≤◌, ◌++◌, [], ◌∷◌, length, option_map, option_to_list, vec_capacity};
ghost use Rattle.nm_edge.specs.Words.{IsSlot};
ghost use Rattle.nm_model.specs.Reports.{keys, tree_slots};
ghost use Rattle.nm_tree.specs.MapReports.{AreLeavesOf};
ghost use Rattle.nm_tree.specs.Ended.{IsEndOf, end_of};

use super::reading::node;
use nm_edge::{Key, Layout};
use nm_model::keys::Subtree;
use nm_model::memory::Node;
use nm_steps::Words;

// Appends a key, if there is one, and the slot of its leaf.
fn put_key(found: &mut Vec<Key>, leaves: &mut Vec<u32>, key: Option<Key>, slot: u32)
    requires keys { length found.old.items + length (option_to_list key) ≤ vec_capacity found.old }
    requires leaves { length leaves.old.items + length (option_to_list key)
        ≤ vec_capacity leaves.old }
    ensures items { found.new.items ≡ found.old.items ++ option_to_list key }
    ensures slots { leaves.new.items
        ≡ leaves.old.items ++ option_to_list (option_map (λ _. slot) key) }
    ensures room { vec_capacity found.old ≤ vec_capacity found.new }
    ensures leaf_room { vec_capacity leaves.old ≤ vec_capacity leaves.new }
{
    if let Some(key) = key {
        found.push(key).unwrap();
        leaves.push(slot).unwrap();
    }
}

// Appends the parts below a node, the left one last, so that it is visited first.
fn put_below(waiting: &mut Vec<Subtree>, node: &Node, depth: u32)
    requires { length waiting.old.items + 2 ≤ vec_capacity waiting.old }
    ensures items { waiting.new.items
        ≡ waiting.old.items ++ record { slot = node.now.right.slot; depth = depth }
        ∷ record { slot = node.now.left.slot; depth = depth } ∷ [] }
    ensures room { vec_capacity waiting.old ≤ vec_capacity waiting.new }
{
    waiting
        .push(Subtree {
            slot: node.right.slot(),
            depth,
        })
        .unwrap();
    waiting
        .push(Subtree {
            slot: node.left.slot(),
            depth,
        })
        .unwrap();
}

/// Finds the keys from left to right, with the slots of their leaves, and returns the number of
/// slots that are reached, including the fixed ones.
pub fn walk(
    words: &Words,
    layout: Layout,
    found: &mut Vec<Key>,
    leaves: &mut Vec<u32>,
    waiting: &mut Vec<Subtree>,
) -> u32
    requires ended { IsEndOf layout words.now.core }
    requires first { found.old.items ≡ [] }
    requires no_leaf { leaves.old.items ≡ [] }
    requires root { waiting.old.items ≡ record { slot = 1; depth = layout.nodes } ∷ [] }
    requires key_room { layout.nodes ≤ vec_capacity found.old }
    requires leaf_room { layout.nodes ≤ vec_capacity leaves.old }
    requires part_room { layout.nodes + 1 ≤ vec_capacity waiting.old }
    ensures keys { (e : IsEndOf layout words.now.core)
        → found.new.items ≡ keys (end_of layout words.now.core e) }
    ensures leaves { (e : IsEndOf layout words.now.core)
        → AreLeavesOf layout (end_of layout words.now.core e).memory found.new.items
        leaves.new.items }
    ensures visited { (e : IsEndOf layout words.now.core)
        → result ≡ length (tree_slots layout.nodes (end_of layout words.now.core e).memory 1) }
{
    let mut visited = 0;
    while let Some(part) = waiting.pop() {
        if part.slot != 0 && part.depth != 0 {
            let top = node(words, layout, part.slot);
            visited += 1;
            put_below(waiting, &top, part.depth - 1);
            put_key(found, leaves, top.set_key(), part.slot);
        }
    }
    visited
}
