//! The number of slots in each place.

/// The numbers of the slots above 5 that are in the pool, private to a worker, reached from the
/// root, and queued. In every run they add up to all slots above 5.
#[derive(Clone, Copy, Debug, PartialEq, Eq)]
pub struct Places {
    pub pool: u32,
    pub private: u32,
    pub reached: u32,
    pub queued: u32,
}
