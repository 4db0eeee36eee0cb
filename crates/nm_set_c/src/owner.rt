//! What a handle owns.
use crate::remains::Remains;
use nm_set::{Map, MapMember, Member, Set};

/// What a handle owns while it is open.
#[derive(Drop)]
pub enum Owner {
    /// A set, which gives out its workers.
    Set(Set),
    /// A worker of a set.
    Worker(Member),
    /// A map, which gives out its workers.
    Map(Map),
    /// A worker of a map.
    MapWorker(MapMember),
    /// The report that a set or a map was closed with, and the values of a map.
    Ended(Remains),
    /// Nothing, while a call has what was owned.
    Nothing,
}
