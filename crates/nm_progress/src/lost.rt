//! Law of lost tries.
ghost use Rattle.nm_order.specs.Moments.{OfEachOrderedRun};
ghost use Rattle.nm_progress.specs.Changes.{LostTriesAreToOthers};

/// Law: for every ordered run, if a worker's link, flag or splice is lost, another worker has
/// changed the edge after this worker read it. This holds if the worker read that very edge of a
/// known node, under the same pin, as the unmarked edge that it expects, and did not change it
/// since. The change is a won link, flag or splice there, or a tag.
pub fn lost_tries_are_to_others()
    ensures { OfEachOrderedRun LostTriesAreToOthers }
{}
