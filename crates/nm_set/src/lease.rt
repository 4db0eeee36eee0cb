//! What a member has of its home: the tree for its calls, and the way back to its seat.
ghost use Rattle.std.specs.Prelude.{◌≡◌, ◌<◌, ◌≤◌, ◌↔◌, List, ◌∷◌, [], Some, None, IfErr, IfNone, IfOk, IfSome, IsErrOf};
ghost use Rattle.std.specs.Arc.{arc_value};
ghost use Rattle.nm_lending.specs.Views.{IsNotThere};
ghost use Rattle.nm_set.specs.Posts.{HasSat};
ghost use Rattle.nm_set.specs.Seats.{BeginsWith, IsOwn, IsResident, MayReturn, seats_in, site_in};
ghost use Rattle.nm_set.specs.States.{closing_set};
ghost use Rattle.nm_tree.specs.Workers.{WorkerView};

use crate::gathering::Gathered;
use crate::home::{Absence, Home};
use crate::posting::Mailbox;
use crate::seat::{Sat, SealedWorker, Ticket, WayBack};
use nm_tree::Tree;
use std::alloc::Global;
use std::marker::Model;
use std::sync::Arc;

/// A member's part in a home. Calls have it by reference, and get only the tree and the mailboxes
/// from it. A worker, or all of them, is taken from a seat only by code that gives the lease away
/// for that, or that has the home itself. So no call of a member can reach another worker than the
/// member's own.
#[derive(Drop)]
pub(crate) struct Lease {
    home: Arc<Home, Global>,
}

impl Model for Lease {
    ghost use Rattle.std.specs.Arc.{arc_value};
    ghost use Rattle.nm_set.specs.Seats.{HomeView};

    ghost Value = { HomeView };

    ghost view = { λ l. arc_value l.home };
}

/// A worker that was taken from its seat, with its way back and a part in its home.
pub(crate) struct Taken {
    pub(crate) home: Lease,
    pub(crate) sealed: SealedWorker,
    pub(crate) way_back: WayBack,
}

impl Lease {
    pub(crate) fn of(home: Arc<Home, Global>) -> Lease
        ensures { result ≡ arc_value home }
    {
        Lease { home }
    }

    /// Returns the tree.
    #[inline(always)]
    pub(crate) fn tree(&self) -> &Tree
        ensures { result.now ≡ self.now.tree }
    {
        self.home.tree()
    }

    /// Returns the mailbox of a worker; `None` if there is no worker of that number.
    pub(crate) fn mailbox_of(&self, number: u32) -> Option<&Mailbox>
        ensures some { IfSome result
            (λ p. (p.now ≡ (site_in self.now, number)) × (number < self.now.tree.layout.workers)) }
        ensures none { IfNone result (self.now.tree.layout.workers ≤ number) }
    {
        self.home.mailbox_of(number)
    }

    /// Puts a worker of this tree on its seat. Its caller has not pinned it.
    pub(crate) fn receive(&self, sealed: SealedWorker, way_back: WayBack) -> Sat
        requires own { IsOwn self.now.tree sealed.worker }
        requires fit { sealed.worker.fit ≡ self.now.fit }
        requires free { sealed.worker.held ≡ None }
        requires back { MayReturn (seats_in self.now) sealed.worker way_back }
        ensures { HasSat (seats_in self.now) sealed.worker result.done result.note result.ticket }
    {
        self.home.receive(sealed, way_back)
    }

    /// Takes the very worker of a ticket, if nobody has taken it since it sat down.
    pub(crate) fn take_again(
        self,
        ticket: Ticket,
    ) -> (Lease, Result<(SealedWorker, WayBack), Ticket>)
        requires { (ticket.table ≡ self.seats) × (ticket.site ≡ Some (site_in self)) }
        ensures lease { result.0 ≡ self }
        ensures same { IfOk result.1 (λ g. ticket.left ≡ Some g.0.worker) }
        ensures taken { IfOk result.1 (λ g. IsResident self.tree self.fit ticket.seat g.0.worker) }
        ensures back { IfOk result.1 (λ g. MayReturn (seats_in self) g.0.worker g.1) }
        ensures refused { IfErr result.1 (IsNotThere ticket) }
    {
        let found = self.home.take_again(ticket);
        (self, found)
    }

    /// Takes a worker from its seat, with a lease of its own for the way back. The lease is made
    /// first. If it cannot be counted, the worker stays on its seat, and counts as attached.
    pub(crate) fn take(self, number: u32) -> (Lease, Result<Taken, Absence>)
        ensures same { result.0 ≡ self }
        ensures lease { IfOk result.1 (λ g. g.home ≡ self) }
        ensures taken { IfOk result.1
            (λ g. IsResident self.tree self.fit number g.sealed.worker
            × (number < self.tree.layout.workers)) }
        ensures back { IfOk result.1 (λ g. MayReturn (seats_in self) g.sealed.worker g.way_back) }
        ensures number { IsErrOf result.1 Absence.Number ↔ (self.tree.layout.workers ≤ number) }
    {
        if self.home.workers() <= number as usize {
            return (self, Err(Absence::Number));
        }
        let Ok(home) = Arc::try_clone(&self.home) else {
            return (self, Err(Absence::Attached));
        };
        match home.take(number) {
            Ok((sealed, way_back)) => {
                let home = Lease { home };
                let taken = Taken {
                    home,
                    sealed,
                    way_back,
                };
                (self, Ok(taken))
            }
            Err(absence) => (self, Err(absence)),
        }
    }

    /// Notes that a worker that was taken from its seat does not come back to it.
    pub(crate) fn retire(self, way_back: WayBack) -> Lease
        requires { way_back.table ≡ self.seats }
        ensures { result ≡ self }
    {
        self.home.retire(way_back);
        self
    }

    /// Returns the tree, with this worker followed by all that are on their seats, if nobody else
    /// has the home.
    pub(crate) fn gather(self, sealed: SealedWorker) -> Result<Gathered, (Lease, SealedWorker)>
        requires own { IsOwn self.tree sealed.worker }
        ensures gathered { IfOk result
            (λ g. (ws : List WorkerView) × (g ≡ closing_set (site_in self) ws)
            × BeginsWith (sealed.worker ∷ []) ws) }
        ensures refused { IfErr result (λ back. (back.0 ≡ self) × (back.1.worker ≡ sealed.worker)) }
    {
        let Self { home } = self;
        match Arc::try_unwrap(home) {
            Ok(home) => {
                let (site, workers) = home.gather_behind(sealed);
                Ok(Gathered::of(site, workers))
            }
            Err(home) => Err((Lease { home }, sealed)),
        }
    }
}
