//! Workers that were returned, and the way to take one again as it was.
ghost use Rattle.std.specs.Prelude.{◌≡◌, None, Some, IfOk, IfErr};
ghost use Rattle.nm_steps.specs.Steps.{IsOf};
ghost use Rattle.nm_set.specs.Posts.{HasSat, IsReturned};
ghost use Rattle.nm_set.specs.Seats.{IsOwn, MayReturn, Stays, seats_in};
ghost use Rattle.nm_tree.specs.Resigning.{HasResigned};
ghost use Rattle.nm_tree.specs.Workers.{WorkerView};

use crate::contents::{Contents, Keys, Values};
use crate::lease::{Lease, Taken};
use crate::member::Member;
use crate::posting::Stamp;
use crate::seat::{Sat, SealedWorker, Stay, Ticket, unite};
use nm_steps::Note;
use nm_tree::ResignReason;
use std::marker::{Model, PhantomData};

/// Evidence that this very worker was returned, with what it had done and seen by then. It is made
/// at the return, and nowhere else. Like a member it keeps the tree alive, and keeps `Set::close`
/// from succeeding, until it is dropped.
#[derive(Drop)]
pub struct ReturnedWorker<V: Contents = Keys> {
    home: Lease,
    ticket: Ticket,
    done: Stamp,
    note: Note,
    of: PhantomData<V>,
}

/// Evidence that this very worker of a map was returned.
pub type ReturnedMapWorker = ReturnedWorker<Values>;

impl<V: Contents> Model for ReturnedWorker<V> {
    ghost use Rattle.std.specs.Prelude.{◌≡◌, Some};
    ghost use Rattle.nm_set.specs.Posts.{ReturnedView};
    ghost use Rattle.nm_set.specs.Seats.{site_in};

    ghost Value = { ReturnedView };

    ghost view = { λ a. record { tree = a.home.tree; worker = a.ticket.left; done = a.done; note = a.note } };

    ghost invariant = { λ a. (a.ticket.table ≡ a.home.seats) × (a.ticket.site ≡ Some (site_in a.home))
        × V.fits a.home.tree };
}

impl<V: Contents> ReturnedWorker<V> {
    pub(crate) fn of(home: Lease, sat: Sat) -> ReturnedWorker<V>
        requires contents { V.fits home.tree }
        requires sat { (w : WorkerView) × HasSat (seats_in home) w sat.done sat.note sat.ticket }
        ensures tree { result.tree ≡ home.tree }
        ensures returned { (w : WorkerView) → HasSat (seats_in home) w sat.done sat.note sat.ticket
            → IsReturned w result }
    {
        let Sat { done, note, ticket } = sat;
        ReturnedWorker {
            home,
            ticket,
            done,
            note,
            of: PhantomData,
        }
    }

    /// Returns what the worker had done when it was returned.
    pub fn done(&self) -> Stamp
        ensures { result ≡ self.now.done }
    {
        self.done
    }

    /// Returns a note of all that the worker had seen when it was returned.
    pub fn into_note(self) -> Note
        ensures { result ≡ self.note }
    {
        let ReturnedWorker {
            home: _,
            ticket: _,
            done: _,
            note,
            of: _,
        } = self;
        note
    }

    /// Takes the worker again, as it was when it was returned: with the same log, the same queues,
    /// and the same pending key. By one compare-exchange.
    ///
    /// Errors: another member has had the worker after that, or it has resigned. What was returned is
    /// handed back unchanged.
    pub fn again(self) -> Result<Member<V>, ReturnedWorker<V>>
        ensures tree { IfOk result (λ m. m.tree ≡ self.tree) }
        ensures same { IfOk result (λ m. self.worker ≡ Some m.worker) }
        ensures refused { IfErr result (λ r. r ≡ self) }
    {
        let ReturnedWorker {
            home,
            ticket,
            done,
            note,
            of: _,
        } = self;
        let (home, found) = home.take_again(ticket);
        match found {
            Ok((sealed, way_back)) => Ok(Member::back(home, sealed, way_back)),
            Err(ticket) => Err(ReturnedWorker {
                home,
                ticket,
                done,
                note,
                of: PhantomData,
            }),
        }
    }
}

/// A worker that did not resign, for this reason, and was returned to its seat; and the one to which
/// it was to resign, unchanged.
pub(crate) struct SentBack<R> {
    pub(crate) reason: ResignReason,
    pub(crate) heir: SealedWorker,
    pub(crate) leaver: R,
}

impl Taken {
    /// Lets the worker that was taken resign to this one: `Tree::resign` of `nm_tree`. If that is
    /// refused, the worker is returned to its seat instead, and the other one is handed back.
    pub(crate) fn resign_to<V: Contents>(
        self,
        heir: SealedWorker,
    ) -> Result<SealedWorker, SentBack<ReturnedWorker<V>>>
        requires contents { V.fits self.home.tree }
        requires heir { IsOf self.home.tree heir.worker.pass }
        requires own { IsOwn self.home.tree self.sealed.worker }
        requires fit { self.sealed.worker.fit ≡ self.home.fit }
        requires free { self.sealed.worker.held ≡ None }
        requires back { MayReturn (seats_in self.home) self.sealed.worker self.way_back }
        ensures done { IfOk result (λ g. HasResigned heir.worker self.sealed.worker g.worker) }
        ensures refused { IfErr result
            (λ s. Stays self.sealed.worker s.reason × (s.heir.worker ≡ heir.worker)
            × (s.leaver.tree ≡ self.home.tree) × IsReturned self.sealed.worker s.leaver) }
    {
        let Taken {
            home,
            sealed,
            way_back,
        } = self;
        match unite(home.tree(), heir, sealed) {
            Ok(heir) => {
                let _gone = home.retire(way_back);
                Ok(heir)
            }
            Err(stay) => {
                let Stay {
                    reason,
                    heir,
                    leaver,
                } = stay;
                let sat = home.receive(leaver, way_back);
                Err(SentBack {
                    reason,
                    heir,
                    leaver: ReturnedWorker::of(home, sat),
                })
            }
        }
    }
}
