//! A worker that a caller keeps for several calls, such as those under a pin.
ghost use Rattle.std.specs.Prelude.{◌≡◌, ◌++◌, ◌∷◌, [], Some, IfOk, IfErr};
ghost use Rattle.nm_set.specs.Seats.{MemberView};
ghost use Rattle.nm_shared.specs.Sharing.{IsBorrowed, IsCallerOf, MayComeBack, NoneWasFree, note_of};

use crate::shared_set::{Caller, SharedSet, Worker};
use nm_lending::Loan;
use nm_set::{Contents, Keys, Member, Set};
use std::marker::Model;

/// A worker of a shared set that its caller keeps: no other call has it until it is detached. If it
/// is dropped, no call has it again.
#[derive(Drop)]
pub struct Attached<V: Contents = Keys> {
    /// The worker, for all calls of a member.
    pub member: Box<Member<V>>,
    loan: Loan<Worker<V>, Set<V>>,
}

impl<V: Contents> Model for Attached<V> {
    ghost use Rattle.nm_shared.specs.Sharing.{AttachedView};

    ghost Value = { AttachedView };

    ghost view = { λ a. record { member = a.member.value; loan = a.loan } };
}

impl<V: Contents> SharedSet<V> {
    /// Borrows a worker for several calls, first the one that the caller had last. The worker hears
    /// what the caller has learned.
    ///
    /// Errors: the caller: each worker was found borrowed, one after the other; nothing has changed.
    /// Cost: a load and a compare-exchange for each worker that it looks at.
    pub fn attach(&self, caller: Caller<V>) -> Result<Attached<V>, Caller<V>>
        requires own { IsCallerOf self.now caller }
        ensures lent { IfOk result (λ a. IsBorrowed self.now caller a.member a.loan) }
        ensures refused { IfErr result (NoneWasFree self.now caller) }
    {
        match self.borrow(caller) {
            Ok((worker, loan)) => {
                let Worker { member } = worker;
                Ok(Attached { member, loan })
            }
            Err(caller) => Err(caller),
        }
    }

    /// Gives back a worker that is not pinned, and notes what it has seen. Costs a store.
    pub fn detach(&self, attached: Attached<V>) -> Caller<V>
        requires back { MayComeBack self.now attached.loan attached.member }
        ensures own { IsCallerOf self.now result }
        ensures visits { (x : MemberView) → attached.loan.taken ≡ Some x
            → result.visits ≡ attached.loan.visits ++ record {
              seat = attached.loan.seat;
              turn = attached.loan.turn;
              was = x;
              left = attached.member;
            } ∷ [] }
        ensures note { result.note ≡ Some (note_of attached.member) }
    {
        let Attached { member, loan } = attached;
        self.give_back(loan, Worker { member })
    }
}
