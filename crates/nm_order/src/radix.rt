//! Laws of ordered runs of a radix tree, in which every call is for a key of the set: its paths and
//! walks are short. Each holds for any workers' turns, in any order.
ghost use Rattle.nm_order.specs.Intervals.{OfEachOrdered};
ghost use Rattle.nm_order.specs.Moments.{OfEachOrderedRun};
ghost use Rattle.nm_order.specs.Ranges.{AnyWalkIsShort, AnyWalkPassesRouters, OfEachRadixLog, PathsAreShort, RangesNest, WalksAreShort, WalksPassRouters};

/// Law: in every ordered run of a radix tree, for each reached node above the fixed ones, every key
/// that a child represents is in the node's range and on the child's side.
pub fn ranges_nest()
    ensures { OfEachOrdered RangesNest }
{}

/// Law: in every ordered run of a radix tree, no path has more than 66 edges, and no walk comes to
/// its slot by more than 129 looks, at 65 nodes. This includes walks whose edges were read at
/// different moments under one pin. It holds of each worker's part of the run too.
pub fn radix_walks_are_short()
    ensures paths { OfEachOrdered PathsAreShort }
    ensures walks { OfEachOrderedRun AnyWalkIsShort }
    ensures logs { OfEachRadixLog WalksAreShort }
{}

/// Law: in every ordered run of a radix tree, each walk goes on only from routers: nodes above the
/// fixed ones with their own key in their range. So a key that is not in the range differs from the
/// router's key.
pub fn radix_walks_pass_routers()
    ensures walks { OfEachOrderedRun AnyWalkPassesRouters }
    ensures logs { OfEachRadixLog WalksPassRouters }
{}
