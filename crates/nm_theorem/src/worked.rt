//! A worked schedule.
ghost use Rattle.nm_theorem.specs.Worked.{AreWrong, IsWorked};

/// Law: on a worked schedule each statement of the headline and of the history applies. A splice
/// cuts two nodes under a reader's pin; one of them is freed once the reader has left, and the
/// other one waits. Statements that claim a little more, or something else, are false for it.
pub fn worked_turns()
    ensures says { IsWorked }
    ensures wrong { AreWrong }
{}
