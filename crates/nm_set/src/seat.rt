//! The seats of a tree's workers, and workers that are on no seat.
ghost use Rattle.std.specs.Prelude.{◌≡◌, ◌<◌, ◌∷◌, [], ◌++◌, length, vec_capacity, None, IfOk, IfErr};
ghost use Rattle.nm_steps.specs.Steps.{IsNoteOf, IsOf};
ghost use Rattle.nm_tree.specs.Resigning.{HasResigned};
ghost use Rattle.nm_set.specs.Posts.{HasSat};
ghost use Rattle.nm_set.specs.Seats.{IsResident, MayReturn, Stays};

use crate::home::Site;
use crate::posting::{Stamp, tally_of};
use nm_lending::{Caller, LendRule, Lending, Loan};
use nm_steps::Note;
use nm_tree::{ResignReason, Tree, Worker};

/// On each seat sits the worker of its number, which claims by the fit of its site and is not
/// pinned. In sitting 0 it has done nothing yet. What a member does with its worker is in the clauses
/// of the member's calls, and not in this rule.
pub(crate) struct Residence;

impl LendRule<Worker, Site> for Residence {
    ghost use Rattle.nm_set.specs.Seats.{changes, sits};

    ghost resident = { sits };

    ghost goes = { changes };
}

/// The seats of a tree's workers. Each has one word, in which sittings are counted.
pub(crate) type Seats = Lending<Worker, Site, Residence>;

/// The right of a worker to come back to its seat. Nobody else sits down there.
pub(crate) type WayBack = Loan<Worker, Site>;

/// Shows which worker sat down on a seat, and in which of its sittings.
pub(crate) type Ticket = Caller<Worker, Site>;

/// A worker that is on no seat: a member has it, or it is on its way from or to a seat. It is not
/// `Drop`, and neither is its seal, which only this file can name. So code that has it must hand it
/// on, on each way out of each function, or take it apart here. No worker is lost by a way out that
/// nobody thought of, and none is taken out of its seal elsewhere.
pub(crate) struct SealedWorker {
    pub(crate) worker: Worker,
    seal: Seal,
}

/// Keeps a sealed worker whole, and does nothing else.
struct Seal {}

/// What a worker leaves when it sits down: what it has done and seen by then, and its ticket.
#[derive(Drop)]
pub(crate) struct Sat {
    pub(crate) done: Stamp,
    pub(crate) note: Note,
    pub(crate) ticket: Ticket,
}

/// Two workers of which one did not resign to the other, for this reason. Both are unchanged.
pub(crate) struct Stay {
    pub(crate) reason: ResignReason,
    pub(crate) heir: SealedWorker,
    pub(crate) leaver: SealedWorker,
}

impl SealedWorker {
    /// Seals a worker.
    pub(crate) fn of(worker: Worker) -> SealedWorker
        ensures { result.worker ≡ worker }
    {
        SealedWorker {
            worker,
            seal: Seal {},
        }
    }

    /// Takes the worker out of its seal.
    fn apart(self) -> Worker
        ensures { result ≡ self.worker }
    {
        let SealedWorker { worker, seal } = self;
        let Seal {} = seal;
        worker
    }

    /// Makes a note of all that the worker has seen.
    fn noted(self, tree: &Tree) -> (SealedWorker, Note)
        requires { IsOf tree.now self.worker.pass }
        ensures same { result.0.worker ≡ self.worker }
        ensures note { IsNoteOf self.worker.pass result.1 }
    {
        let SealedWorker { worker, seal } = self;
        let mut worker = worker;
        let note = tree.note(&mut worker);
        (SealedWorker { worker, seal }, note)
    }

    /// Puts the worker on its seat, by one store. It cannot fail, because nobody else has the way
    /// back to this seat.
    pub(crate) fn sit_down(self, tree: &Tree, seats: &Seats, way_back: WayBack) -> Sat
        requires own { IsOf tree.now self.worker.pass }
        requires back { MayReturn seats.now self.worker way_back }
        requires resident { IsResident seats.now.site.tree seats.now.site.fit way_back.seat self.worker }
        ensures { HasSat seats.now self.worker result.done result.note result.ticket }
    {
        self.worker.know_run();
        let (sealed, note) = self.noted(tree);
        let done = tally_of(&sealed.worker);
        Sat {
            done,
            note,
            ticket: seats.give_back(way_back, sealed.apart()),
        }
    }

    /// Keeps the worker with these. There is room for it.
    pub(crate) fn stay_with(self, workers: &mut Vec<Worker>)
        requires { length workers.old.items < vec_capacity workers.old }
        ensures items { workers.new.items ≡ workers.old.items ++ self.worker ∷ [] }
        ensures capacity { vec_capacity workers.new ≡ vec_capacity workers.old }
    {
        workers.push_reserved(self.apart());
    }
}

/// Lets one worker resign to another: `Tree::resign` of `nm_tree`. If that is refused, both are
/// handed back.
pub(crate) fn unite(
    tree: &Tree,
    heir: SealedWorker,
    leaver: SealedWorker,
) -> Result<SealedWorker, Stay>
    requires heir { IsOf tree.now heir.worker.pass }
    requires leaver { IsOf tree.now leaver.worker.pass }
    requires free { leaver.worker.held ≡ None }
    ensures done { IfOk result (λ g. HasResigned heir.worker leaver.worker g.worker) }
    ensures refused { IfErr result
        (λ s. Stays leaver.worker s.reason × (s.heir.worker ≡ heir.worker)
        × (s.leaver.worker ≡ leaver.worker)) }
{
    match tree.resign(heir.apart(), leaver.apart()) {
        Ok(worker) => Ok(SealedWorker::of(worker)),
        Err(fault) => Err(Stay {
            reason: fault.reason,
            heir: SealedWorker::of(fault.heir),
            leaver: SealedWorker::of(fault.leaver),
        }),
    }
}
