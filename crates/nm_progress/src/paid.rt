//! Laws on what pays for changes of edges.
ghost use Rattle.nm_order.specs.Moments.{OfEachOrderedRun};
ghost use Rattle.nm_progress.specs.Paid.{SplicesArePaid, SplicesArePaidSince, TagsArePaid, TagsArePaidSince};

/// Law: for every ordered run there are no more won splices than won flags. Over each part of a run
/// there are at most as many more as there are workers. The reason is that each splice removes a
/// flagged leaf from the tree, and each leaf was flagged once.
pub fn splices_are_paid()
    ensures all { OfEachOrderedRun SplicesArePaid }
    ensures since { SplicesArePaidSince }
{}

/// Law: for every ordered run there are no more tags of unmarked edges than won flags. Over each
/// part of a run there are at most as many more as there are workers. The reason is that such an
/// edge is tagged only for the flagged leaf beside it.
pub fn tags_are_paid()
    ensures all { OfEachOrderedRun TagsArePaid }
    ensures since { TagsArePaidSince }
{}
