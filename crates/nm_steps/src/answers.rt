//! The reply of a sight.

/// The reply of a sight (epoch read); each variant has the global epoch.
#[derive(Clone, Copy, Debug, PartialEq, Eq)]
pub enum Sighted {
    /// The epoch, and nothing else.
    Saw(u64),
    /// The nodes of the worker's last cut have this epoch as their label (retire epoch).
    Labelled(u64),
    /// The worker is pinned at this epoch.
    Pinned(u64),
    /// The epoch differs from the announced one: the worker is not pinned.
    Missed(u64),
}
