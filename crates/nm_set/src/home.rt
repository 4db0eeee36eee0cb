//! The home of a tree's workers: one seat for each worker, which keeps it while no member has it.
ghost use Rattle.std.specs.Prelude.{◌≡◌, ◌<◌, ◌≤◌, ◌+◌, ◌^◌, ◌↔◌, ◌∷◌, [], length, None, IfNone, IfOk, IfErr, IfSome, IsErrOf, Some, vec_capacity};
ghost use Rattle.nm_lending.specs.Views.{IsNotThere};
ghost use Rattle.nm_tree.specs.Workers.{AreNew, HaveFit};
ghost use Rattle.nm_set.specs.Posts.{HasSat};
ghost use Rattle.nm_set.specs.Seats.{AreOnSeats, AreOwn, ArePlaces, BeginsWith, HasRoom, IsOwn, IsResident, IsTicketOf, MayReturn, seats_in, site_in};

use crate::posting::{Mailbox, empty_mailbox};
use crate::seat::{Sat, SealedWorker, Seats, Ticket, WayBack};
use nm_tree::{Fit, Tree, Worker};
use std::alloc::{AllocError, Global};
use std::marker::Model;

/// A tree, and the fit by which its workers claim slots.
#[derive(Drop)]
pub(crate) struct Site {
    pub(crate) tree: Tree,
    pub(crate) fit: Fit,
}

/// A tree, with a seat and a mailbox for each of its workers, in the order of their numbers.
#[derive(Drop)]
pub(crate) struct Home {
    site: Site,
    seats: Seats,
    mailboxes: Vec<Mailbox>,
    // Has room for all workers and one more. The end of the set takes this room, so that it asks
    // for no memory.
    room: Vec<Worker>,
}

impl Model for Home {
    ghost use Rattle.std.specs.Prelude.{◌≡◌, ◌≤◌, ◌+◌, [], length, vec_capacity};
    ghost use Rattle.nm_set.specs.Seats.{ArePlaces, HomeView};

    ghost Value = { HomeView };

    ghost view = { λ h. record { tree = h.site.tree; fit = h.site.fit; seats = h.seats.table } };

    ghost invariant = { λ h. (h.seats.site ≡ h.site) × (h.seats.table.words ≡ h.site.tree.layout.workers)
        × ArePlaces h.site 0 h.mailboxes.items × (length h.mailboxes.items ≡ h.site.tree.layout.workers)
        × (h.room.items ≡ []) × (1 + h.site.tree.layout.workers ≤ vec_capacity h.room) };
}

/// Why a worker is not on its seat.
#[derive(Clone, Copy)]
pub(crate) enum Absence {
    /// The tree has no worker of that number.
    Number,
    /// Its seat is empty.
    Attached,
}

/// Returns these workers, each as what sits on a seat.
fn seated(
    alloc: Global,
    workers: Vec<Worker>,
    site: &Site,
) -> Result<Vec<Option<Worker>>, AllocError>
    requires new { AreNew site.now.tree 0 workers.items }
    requires fit { HaveFit site.now.fit workers.items }
    ensures new { IfOk result (λ ws. AreOnSeats site.now 0 ws.items) }
    ensures count { IfOk result (λ ws. length ws.items ≡ length workers.items) }
{
    let mut on_seats = Vec::with_capacity(alloc, workers.len())?;
    for worker in workers {
        on_seats.push_reserved(Some(worker));
    }
    Ok(on_seats)
}

/// Makes a mailbox for each worker of a site, and hands the site back.
fn mailboxes_of(alloc: Global, site: Site, workers: u32) -> Result<(Site, Vec<Mailbox>), AllocError>
    ensures site { IfOk result (λ r. r.0 ≡ site) }
    ensures places { IfOk result (λ r. ArePlaces site 0 r.1.items) }
    ensures count { IfOk result (λ r. length r.1.items ≡ workers) }
{
    let mut mailboxes = Vec::with_capacity(alloc, workers as usize)?;
    let mut place = (site, 0);
    for number in 0..workers {
        place.1 = number;
        mailboxes.push(empty_mailbox(&place))?;
    }
    let (site, _) = place;
    Ok((site, mailboxes))
}

impl Home {
    /// Makes the home of a new tree, whose workers are all on their seats.
    pub(crate) fn of(
        alloc: Global,
        site: Site,
        all: Vec<Worker>,
        workers: u32,
    ) -> Result<Home, AllocError>
        requires new { AreNew site.tree 0 all.items }
        requires fit { HaveFit site.fit all.items }
        requires count { length all.items ≡ workers }
        requires each { site.tree.layout.workers ≡ workers }
        ensures { IfOk result (λ home. site_in home ≡ site) }
    {
        let room = Vec::with_capacity(alloc, 1 + workers as usize)?;
        let on_seats = seated(alloc, all, &site)?;
        let seats = Seats::new(alloc, &site, on_seats)?;
        let (site, mailboxes) = mailboxes_of(alloc, site, workers)?;
        Ok(Home {
            site,
            seats,
            mailboxes,
            room,
        })
    }

    /// Takes a worker from its seat, with its way back. It is new if it was not taken before.
    pub(crate) fn take(&self, number: u32) -> Result<(SealedWorker, WayBack), Absence>
        ensures taken { IfOk result
            (λ g. IsResident self.now.tree self.now.fit number g.0.worker
            × (number < self.now.tree.layout.workers)) }
        ensures back { IfOk result (λ g. MayReturn (seats_in self.now) g.0.worker g.1) }
        ensures first { IfOk result (λ g. g.1.turn ≡ 0 → AreNew self.now.tree number (g.0.worker ∷ [])) }
        ensures number { IsErrOf result Absence.Number ↔ (self.now.tree.layout.workers ≤ number) }
    {
        if self.seats.len() <= number as usize {
            return Err(Absence::Number);
        }
        match self.seats.lend(self.seats.caller(), number) {
            Ok((worker, way_back)) => Ok((SealedWorker::of(worker), way_back)),
            Err(_) => Err(Absence::Attached),
        }
    }

    /// Takes a worker that was never taken before. Returns `None` if there is none of that number.
    pub(crate) fn take_first(&self, number: u32) -> Option<(SealedWorker, WayBack)>
        ensures taken { IfSome result (λ g. IsResident self.now.tree self.now.fit number g.0.worker) }
        ensures back { IfSome result (λ g. MayReturn (seats_in self.now) g.0.worker g.1) }
        ensures new { IfSome result (λ g. AreNew self.now.tree number (g.0.worker ∷ [])) }
    {
        if self.seats.len() <= number as usize {
            return None;
        }
        match self.seats.lend_first(self.seats.caller(), number) {
            Ok((worker, way_back)) => Some((SealedWorker::of(worker), way_back)),
            Err(_) => None,
        }
    }

    /// Takes the very worker of a ticket, if nobody has taken it since it sat down.
    pub(crate) fn take_again(&self, ticket: Ticket) -> Result<(SealedWorker, WayBack), Ticket>
        requires { (ticket.table ≡ self.now.seats) × (ticket.site ≡ Some (site_in self.now)) }
        ensures same { IfOk result (λ g. ticket.left ≡ Some g.0.worker) }
        ensures taken { IfOk result (λ g. IsResident self.now.tree self.now.fit ticket.seat g.0.worker) }
        ensures back { IfOk result (λ g. MayReturn (seats_in self.now) g.0.worker g.1) }
        ensures refused { IfErr result (IsNotThere ticket) }
    {
        match self.seats.lend_again(ticket) {
            Ok((worker, way_back)) => Ok((SealedWorker::of(worker), way_back)),
            Err(ticket) => Err(ticket),
        }
    }

    /// Puts a worker of this tree on its seat. Its caller has not pinned it.
    pub(crate) fn receive(&self, sealed: SealedWorker, way_back: WayBack) -> Sat
        requires own { IsOwn self.now.tree sealed.worker }
        requires fit { sealed.worker.fit ≡ self.now.fit }
        requires free { sealed.worker.held ≡ None }
        requires back { MayReturn (seats_in self.now) sealed.worker way_back }
        ensures { HasSat (seats_in self.now) sealed.worker result.done result.note result.ticket }
    {
        sealed.sit_down(&self.site.tree, &self.seats, way_back)
    }

    /// Notes that a worker that was taken from its seat does not come back to it.
    pub(crate) fn retire(&self, way_back: WayBack)
        requires { way_back.table ≡ self.now.seats }
    {
        let _caller = self.seats.retire(way_back);
    }

    /// Returns whether a member has the worker; `None` if there is no worker of that number.
    pub(crate) fn is_attached(&self, number: u32) -> Option<bool>
        ensures some { IfSome result (λ _. number < self.now.tree.layout.workers) }
        ensures none { IfNone result (self.now.tree.layout.workers ≤ number) }
    {
        if self.seats.len() <= number as usize {
            return None;
        }
        let mut caller = self.seats.caller();
        Some(self.seats.is_away(&mut caller, number))
    }

    /// Returns the mailbox of a worker; `None` if there is no worker of that number.
    pub(crate) fn mailbox_of(&self, number: u32) -> Option<&Mailbox>
        ensures some { IfSome result
            (λ p. (p.now ≡ (site_in self.now, number)) × (number < self.now.tree.layout.workers)) }
        ensures none { IfNone result (self.now.tree.layout.workers ≤ number) }
    {
        Some(self.mailboxes.get(number as usize)?)
    }

    /// Returns the tree, with the workers that were kept, followed by those that are on their
    /// seats.
    pub(crate) fn gather(self, kept: Vec<Worker>) -> (Site, Vec<Worker>)
        requires own { AreOwn self.tree kept.items }
        requires room { HasRoom self.tree kept.items (vec_capacity kept) }
        ensures site { result.0 ≡ site_in self }
        ensures own { AreOwn self.tree result.1.items }
        ensures kept { BeginsWith kept.items result.1.items }
    {
        let Home {
            site,
            seats,
            mailboxes: _,
            room,
        } = self;
        let workers = if kept.is_empty() { room } else { kept };
        (site, seats.gather(workers))
    }

    /// Returns the tree, with one attached worker, followed by those that are on their seats.
    pub(crate) fn gather_behind(self, sealed: SealedWorker) -> (Site, Vec<Worker>)
        requires own { IsOwn self.tree sealed.worker }
        ensures site { result.0 ≡ site_in self }
        ensures own { AreOwn self.tree result.1.items }
        ensures first { BeginsWith (sealed.worker ∷ []) result.1.items }
    {
        let Home {
            site,
            seats,
            mailboxes: _,
            room,
        } = self;
        let mut workers = room;
        sealed.stay_with(&mut workers);
        (site, seats.gather(workers))
    }

    /// Returns the tree.
    pub(crate) fn tree(&self) -> &Tree
        ensures { result.now ≡ self.now.tree }
    {
        &self.site.tree
    }

    /// Returns the number of the tree's workers.
    pub(crate) fn workers(&self) -> usize
        ensures count { result ≡ self.now.tree.layout.workers }
        ensures few { 1 + result < 2 ^ 64 }
    {
        self.mailboxes.len()
    }
}
