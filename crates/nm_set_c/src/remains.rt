//! What is left of a set or a map that was closed.
use nm_set::{MapValues, Report};

/// What is left of a set or a map that was closed.
#[derive(Drop)]
pub struct Remains {
    /// The report.
    pub report: Report,
    /// The values that had not come back, if it was a map.
    pub values: Option<MapValues>,
}
