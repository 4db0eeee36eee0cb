//! What a tree has under its keys: nothing, in a set, or a value for each, in a map.
ghost use Rattle.std.specs.Prelude.{◌≡◌, IfErr, IfOk};
ghost use Rattle.nm_steps.specs.Steps.{TreeView};
ghost use Rattle.nm_tree.specs.Trees.{IsNewTree};

use nm_edge::Layout;
use nm_tree::{Fit, NewError, Tree, Worker};
use std::alloc::Global;

/// What the tree of a `Set<V>` and of its `Member<V>`s has under its keys. `V` is `Keys` or `Values`, of
/// which no value is made. The member `fits` says which trees those are.
pub trait Contents {
    ghost fits: { TreeView → Type 0 };

    /// Makes an empty tree of a layout, and its workers, which claim by that fit.
    ///
    /// Errors: `NoMemory`: nothing is kept. No other error occurs.
    fn tree(alloc: Global, layout: Layout, fit: Fit) -> Result<(Tree, Vec<Worker>), NewError>
        ensures new { IfOk result (λ r. IsNewTree layout fit r.0 r.1.items) }
        ensures fits { IfOk result (λ r. fits r.0) }
        ensures memory { IfErr result (λ e. e ≡ NewError.NoMemory) };
}

/// Nothing: the tree is that of a set.
pub struct Keys;

/// A value, an integer, under each key: the tree is that of a map.
pub struct Values;

impl Contents for Keys {
    ghost fits = { λ b. Unit {0} };

    fn tree(alloc: Global, layout: Layout, fit: Fit) -> Result<(Tree, Vec<Worker>), NewError> {
        Tree::of(alloc, layout, fit)
    }
}

impl Contents for Values {
    ghost use Rattle.nm_steps.specs.Values.{HasValues};

    ghost fits = { HasValues };

    fn tree(alloc: Global, layout: Layout, fit: Fit) -> Result<(Tree, Vec<Worker>), NewError> {
        Tree::with_values(alloc, layout, fit)
    }
}
