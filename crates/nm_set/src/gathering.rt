//! A tree together with the workers that were gathered for its end.
ghost use Rattle.std.specs.Prelude.{◌≡◌, IfErr, IfOk};
ghost use Rattle.nm_steps.specs.Values.{HasValues};
ghost use Rattle.nm_tree.specs.Closing.{SaysClosed, IsCloseReason};
ghost use Rattle.nm_tree.specs.MapReports.{EndsMap};
ghost use Rattle.nm_set.specs.Seats.{AreOwn};
ghost use Rattle.nm_set.specs.States.{closing_set};

use crate::contents::Contents;
use crate::home::Site;
use crate::set::{CloseError, Set, end};
use nm_tree::{Ended, Worker};
use std::marker::Model;

/// A tree and its gathered workers. Other modules can only end it.
#[derive(Drop)]
pub(crate) struct Gathered {
    site: Site,
    workers: Vec<Worker>,
}

impl Model for Gathered {
    ghost use Rattle.nm_set.specs.Seats.{AreOwn, SetView};
    ghost use Rattle.nm_set.specs.States.{closing_set};

    ghost Value = { SetView };

    ghost view = { λ g. closing_set g.site g.workers.items };

    ghost invariant = { λ g. AreOwn g.site.tree g.workers.items };
}

impl Gathered {
    pub(crate) fn of(site: Site, workers: Vec<Worker>) -> Gathered
        requires own { AreOwn site.tree workers.items }
        ensures { result ≡ closing_set site workers.items }
    {
        Gathered { site, workers }
    }

    /// Closes the tree. If that fails, a set that is closing keeps both.
    pub(crate) fn close<V: Contents>(self) -> Result<Ended, CloseError<Set<V>>>
        requires { V.fits self.tree }
        ensures own { AreOwn self.tree self.kept }
        ensures says { IfOk result (λ r. SaysClosed self.tree self.kept r.report.queues.items
            r.report.keys.items r.report.free r.report.reached) }
        ensures values { HasValues self.tree → IfOk result (λ r. EndsMap self.tree self.kept
            r.report.queues.items r.report.keys.items r.leaves.items r.words r.layout r.report.free
            r.report.reached) }
        ensures refused { IfErr result (λ e. e.set ≡ self) }
        ensures reason { IfErr result (λ e. IsCloseReason self.tree self.kept e.reason) }
    {
        let Self { site, workers } = self;
        end(site, workers)
    }
}
