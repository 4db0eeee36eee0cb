//! The end of a set, or of a map, by its last member.
ghost use Rattle.std.specs.Prelude.{IfOk, IfErr};
ghost use Rattle.nm_steps.specs.Values.{HasValues};
ghost use Rattle.nm_set.specs.Ends.{EndsMapSet, IsNotEnded, SaysEnded, SaysMapEnded, set_of};

use crate::contents::{Contents, Keys, Values};
use crate::member::Member;
use crate::set::{CloseError, Set};
use nm_tree::{Ended, MapReport, Report};

/// A member (`M`) did not end its set or map (`S`). No worker is lost.
#[derive(Drop)]
pub enum EndError<M, S> {
    /// The `Set` is not dropped, or another member is not closed, or is being closed at this
    /// moment. The member is unchanged.
    Attached(M),
    /// The tree was not closed, for the given reason, after all workers had been gathered. The set
    /// keeps the member's worker and then those that had been returned. Only `Set::close` goes on
    /// with it.
    Gathered(CloseError<S>),
}

impl Member<Keys> {
    /// Ends the set by its last member, after the `Set` was dropped and all other members were
    /// closed. Returns the report: `Tree::close` of `nm_tree`, over the member's worker and the
    /// workers that were returned. So the report is of the very tree on which this member has
    /// worked, with all that its worker has done. No value is compared, and unlike `Set::keep` the
    /// call has no condition. The caller may hold the worker, and a key may be pending.
    ///
    /// Errors: `Attached`: the member is unchanged; if two members call this at the same moment,
    /// both may get it. `Gathered`: see `EndError`; also if the `Set` kept workers (`Set::keep`)
    /// when it was dropped, because the tree then lacks some of its workers.
    pub fn end(self) -> Result<Report, EndError<Member, Set>>
        ensures says { IfOk result (SaysEnded (set_of self)) }
        ensures refused { IfErr result (IsNotEnded self) }
    {
        Ok(self.end_tree()?.into_report())
    }
}

impl Member<Values> {
    /// Ends the map by its last member, after the `Map` was dropped and all other members were
    /// closed. It returns the values that have not come back, like `Map::close`.
    ///
    /// Errors: those of the `end` of a set.
    pub fn end(self) -> Result<MapReport, EndError<Member<Values>, Set<Values>>>
        ensures says { IfOk result (SaysMapEnded (set_of self)) }
        ensures refused { IfErr result (IsNotEnded self) }
    {
        match self.end_tree() {
            Ok(ended) => Ok(ended.into_map_report()),
            Err(error) => Err(error),
        }
    }
}

impl<V: Contents> Member<V> {
    /// Ends the set or the map, like `end`, and returns its words, with the values of a map among
    /// them.
    ///
    /// Errors: those of `end`.
    pub(crate) fn end_tree(self) -> Result<Ended, EndError<Member<V>, Set<V>>>
        ensures contents { V.fits self.tree }
        ensures says { IfOk result (λ r. SaysEnded (set_of self) r.report) }
        ensures values { HasValues self.tree → IfOk result (EndsMapSet (set_of self)) }
        ensures refused { IfErr result (IsNotEnded self) }
    {
        let (home, sealed, way_back) = self.apart();
        let gathered = match home.gather(sealed) {
            Ok(gathered) => gathered,
            Err((home, sealed)) => {
                return Err(EndError::Attached(Member::back(home, sealed, way_back)));
            }
        };
        drop(way_back);
        match gathered.close() {
            Ok(ended) => Ok(ended),
            Err(error) => Err(EndError::Gathered(error)),
        }
    }
}
