//! A set of a new size that takes the place of an old one.
ghost use Rattle.std.specs.Prelude.{◌≡◌, length, IfOk};
ghost use Rattle.nm_edge.specs.Layouts.{in_radix, spaced};
ghost use Rattle.nm_set.specs.Ends.{SaysEnded};
ghost use Rattle.nm_set.specs.Filling.{HasFilled};
ghost use Rattle.nm_set.specs.States.{IsNewSet};
ghost use Rattle.nm_shared.specs.Sizes.{HasSameKeys};

use nm_set::{CloseError, Fit, OfKeysError, Options, Report, Set, SetOfKeys};
use std::alloc::Global;

/// The new set with all its members, and the report of the old one.
#[derive(Drop)]
pub struct Regrown {
    pub made: SetOfKeys,
    pub report: Report,
}

/// Why there is no set of the new size.
#[derive(Drop)]
pub enum RegrowError {
    /// The old set was not closed, and is handed back.
    Open(CloseError<Set>),
    /// The new set was not made. The report of the old set has the keys.
    Refused(OfKeysError, Report),
}

/// Ends a set whose members were all returned or kept, and makes a radix tree of a new size with
/// exactly its keys.
///
/// Errors: `Open`: the old set has members, or its end was refused memory; it goes on. `Refused`:
/// the old set has ended, and the new one was refused memory, or has too few nodes for the keys.
/// Cost: a walk over the old set, and an insert for each key.
pub fn regrow(
    alloc: Global,
    old: Set,
    nodes: u32,
    workers: u32,
    options: &Options,
) -> Result<Regrown, RegrowError>
    ensures new { IfOk result
        (λ r. IsNewSet (in_radix (spaced nodes workers)) Fit.NextFit r.made.set) }
    ensures ended { IfOk result (λ r. SaysEnded old r.report) }
    ensures filled { IfOk result (λ r. HasFilled r.made.set.tree r.made.set.fit
        (length r.made.others.items) r.report.keys.items r.made.filler) }
    ensures same { IfOk result (λ r. HasSameKeys old r.report r.made.filler) }
{
    let report = match old.close() {
        Ok(report) => report,
        Err(error) => return Err(RegrowError::Open(error)),
    };
    match Set::of_keys(alloc, nodes, workers, report.keys.as_slice(), options) {
        Ok(made) => Ok(Regrown { made, report }),
        Err(error) => Err(RegrowError::Refused(error, report)),
    }
}
