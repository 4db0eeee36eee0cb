//! A worked schedule, as an example of the laws.
ghost use Rattle.nm_progress.specs.Worked.{IsWorked};

/// Law: in the worked schedule a link is lost to a flag, and its worker then helps the delete.
/// Proved by computation.
pub fn worked_tries()
    ensures { IsWorked }
{}
