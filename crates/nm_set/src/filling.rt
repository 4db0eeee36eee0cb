//! Sets that are made of keys: one member inserts them before any other member can act.
ghost use Rattle.std.specs.Prelude.{◌≡◌, ◌+◌, ◌<◌, ℕ, [], ◌∷◌, true, false, length, None, IfErr, IfOk, IfSome, Ok};
ghost use Rattle.nm_edge.specs.Layouts.{in_radix, spaced};
ghost use Rattle.nm_model.specs.declared.event.Op.TheVariants.{Insert};
ghost use Rattle.nm_order.specs.Logs.{part_of};
ghost use Rattle.nm_set.specs.Filling.{HasFilled, HasInserted, HasWatched, HaveWatched, IsNotMade, RiseFrom, StopsFilling};
ghost use Rattle.nm_set.specs.Managed.{SaysManaged};
ghost use Rattle.nm_set.specs.Seats.{AreNewMembers, IsNewMember};
ghost use Rattle.nm_set.specs.States.{IsNewSet};

use crate::contents::Keys;
use crate::fault::InsertFault;
use crate::managed::Options;
use crate::member::Member;
use crate::set::Set;
use nm_edge::{Key, MOST_SPACED_NODES};
use nm_tree::{CallFault, Fit, NewError};
use std::alloc::Global;
use thiserror::Error;

/// Why a set was not made of keys.
#[derive(Clone, Copy, Debug, Error, PartialEq, Eq)]
pub enum OfKeysError {
    /// The number of nodes, or of workers, is not allowed, or memory was refused.
    #[error("{0}")]
    New(NewError),
    /// A key is not above the one before it.
    #[error("the keys do not ascend")]
    Order,
    /// No slot was free: n keys take 2 n + 5 nodes.
    #[error("no slot is free for a key: n keys take 2 n + 5 nodes")]
    Full,
    /// An insert reached the bounds of the options.
    #[error("an insert reached the bounds of the options")]
    Busy,
}

/// A set that was made of keys, and all its members.
#[derive(Drop)]
pub struct SetOfKeys {
    pub set: Set,
    /// The members that have done nothing, in the order of their numbers.
    pub others: Vec<Member>,
    /// The last member, which has inserted the keys.
    pub filler: Member,
}

impl Set<Keys> {
    /// Makes the set of ascending keys, in a radix tree as `new` does, with all its members. The
    /// last member inserts the keys, in their order, before any other member can act. Proved: after
    /// what it has seen then, the set has exactly these keys. The other members have made no
    /// transition (turn), and have seen all that it has seen: so each call that they make comes
    /// after the inserts.
    ///
    /// Errors: `New`: as of `with_members`, or an insert lacked memory. `Order`: the keys do not
    /// ascend. `Full`: n keys take 2 n + 5 nodes. `Busy`: an insert reached the bounds of the options.
    /// Nothing is kept. Proved (`not_made`): each error has its reason; after `Full` and `Busy` it is
    /// what the insert of one of the keys returned.
    /// Cost: an insert for each key.
    pub fn of_keys(
        alloc: Global,
        nodes: u32,
        workers: u32,
        keys: &[Key],
        options: &Options,
    ) -> Result<SetOfKeys, OfKeysError>
        ensures open { IfOk result
            (λ r. IsNewSet (in_radix (spaced nodes workers)) Fit.NextFit r.set) }
        ensures count { IfOk result (λ r. length r.others.items + 1 ≡ workers) }
        ensures ascend { IfOk result (λ _. RiseFrom 0 keys.now) }
        ensures filler { IfOk result
            (λ r. HasFilled r.set.tree r.set.fit (length r.others.items) keys.now r.filler) }
        ensures others { IfOk result
            (λ r. HaveWatched r.set.tree r.set.fit r.filler.worker.pass 0 r.others.items) }
        ensures not_made { IfErr result (IsNotMade MOST_SPACED_NODES nodes workers
            options.now keys.now) }
    {
        if !ascend(keys) {
            return Err(OfKeysError::Order);
        }
        let (set, mut others) = match Set::with_members(alloc, nodes, workers) {
            Ok(made) => made,
            Err(error) => return Err(OfKeysError::New(error)),
        };
        let Some(mut filler) = others.pop() else {
            return Err(OfKeysError::New(NewError::Workers));
        };
        if let Err(error) = fill(&mut filler, keys, options) {
            return Err(error);
        }
        let Some(others) = show(alloc, &mut filler, others) else {
            return Err(OfKeysError::New(NewError::NoMemory));
        };
        filler.know_run();
        Ok(SetOfKeys {
            set,
            others,
            filler,
        })
    }
}

/// Returns whether each key is above the one before it.
fn ascend(keys: &[Key]) -> bool
    ensures yes { result ≡ true → RiseFrom 0 keys.now }
    ensures no { result ≡ false → RiseFrom 0 keys.now → ⊥ }
{
    let mut least = 0;
    for key in keys {
        let number = key.get();
        if number < least {
            return false;
        }
        least = number + 1;
    }
    true
}

/// Inserts these keys, in their order. Errors: an insert did not return true.
fn fill(member: &mut Member, keys: &[Key], options: &Options) -> Result<(), OfKeysError>
    requires free { member.old.worker.held ≡ None }
    requires settled { member.old.worker.pending ≡ None }
    ensures tree { member.new.tree ≡ member.old.tree }
    ensures free { IfOk result (λ _. member.new.worker.held ≡ None) }
    ensures settled { IfOk result (λ _. member.new.worker.pending ≡ None) }
    ensures did { IfOk result (λ _. HasInserted keys.now member.old.worker member.new.worker) }
    ensures stopped { IfErr result (StopsFilling options.now keys.now) }
{
    for key in keys {
        if let Err(error) = add(member, *key, options) {
            return Err(error);
        }
    }
    Ok(())
}

/// Inserts a key. Errors: the insert did not return true.
fn add(member: &mut Member, key: Key, options: &Options) -> Result<(), OfKeysError>
    ensures tree { member.new.tree ≡ member.old.tree }
    ensures did { IfOk result (λ _. SaysManaged Insert member.old.tree options.now key
        member.old.worker member.new.worker (Ok true)) }
    ensures stopped { IfErr result (StopsFilling options.now (key ∷ [])) }
{
    match member.insert(key, options) {
        Ok(true) => Ok(()),
        Ok(false) => Err(OfKeysError::Busy),
        Err(InsertFault::Full(_) | InsertFault::Other(CallFault::Full)) => Err(OfKeysError::Full),
        Err(InsertFault::Other(CallFault::NoMemory)) => Err(OfKeysError::New(NewError::NoMemory)),
        Err(InsertFault::Other(_)) => Err(OfKeysError::Busy),
    }
}

/// Lets each of these members hear what the first one has seen, and returns them. So they have made
/// no transition in it. `None`: memory was refused.
fn show(alloc: Global, filler: &mut Member, others: Vec<Member>) -> Option<Vec<Member>>
    requires new { AreNewMembers filler.old.tree filler.old.worker.fit 0 others.items }
    ensures same { filler.new ≡ filler.old }
    ensures count { IfSome result (λ ms. length ms.items ≡ length others.items) }
    ensures rested { IfSome result (λ _. (i : ℕ) → i < length others.items
        → part_of i filler.old.worker.pass.view.past ≡ []) }
    ensures watched { IfSome result (λ ms. HaveWatched filler.old.tree filler.old.worker.fit
        filler.old.worker.pass 0 ms.items) }
{
    let Ok(mut shown) = Vec::with_capacity(alloc, others.len()) else {
        return None;
    };
    for other in others {
        shown.push_reserved(watch(filler, other));
    }
    Some(shown)
}

/// Lets a member that has done nothing hear what another one has seen, and returns it.
fn watch(filler: &mut Member, other: Member) -> Member
    requires new { (n : ℕ) × IsNewMember filler.old.tree filler.old.worker.fit n other }
    ensures same { filler.new ≡ filler.old }
    ensures rested { part_of other.worker.pass.view.number filler.old.worker.pass.view.past ≡ [] }
    ensures watched { HasWatched filler.old.tree filler.old.worker.fit filler.old.worker.pass
        other.worker.pass.view.number result }
{
    let mut other = other;
    let note = filler.note();
    other.hear(note);
    other.know_run();
    other
}
