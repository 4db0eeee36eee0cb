//! Look-ups of several keys together, by the handle of a worker.
#![tactic(auto, using(crate::proofs::Owners::asked_of_owner))]

ghost use Rattle.std.specs.Prelude.{◌≡◌, ℕ, true, false, length, map, IfOk, IfErr};
ghost use Rattle.nm_calls.specs.InTurns.{key_of};
ghost use Rattle.nm_calls.specs.declared.many.Query.{Query as Asked};
ghost use Rattle.nm_set.specs.InTurns.{AskedMany};
ghost use Rattle.nm_set_c.specs.Handles.{held_by};
ghost use Rattle.nm_set_c.specs.Lookups.{AreKeys, TellsContainsMany, IsUnasked, key_looked_up, lookup_of};
ghost use Rattle.nm_set_c.specs.Outcomes.{IsCodeOf};
ghost use Rattle.nm_set_c.specs.Owners.{HasDone, OfWorker};

use crate::claiming::by_handle;
use crate::handle::Handle;
use crate::outcome::Outcome;
use nm_edge::{Key, MOST_KEY};
use nm_set::{CallFault, Member, Query};
use std::alloc::Global;

/// A key that is looked up beside others, with its answer, as C has it.
pub(crate) trait Asking: Copy {
    ghost number: { Self → ℕ };

    ghost written: { Asked → Self };

    /// Returns the number to look up, which may be no key.
    fn number(&self) -> u64
        ensures { result ≡ number self.now };

    /// Returns a query with its answer.
    fn answered(query: &Query) -> Self
        ensures { result ≡ written query.now };
}

/// A key that is looked up beside others, and whether it is in the set.
#[repr(C)]
#[derive(Clone, Copy, Debug)]
pub struct Lookup {
    /// The key, 0 to 2^64 - 4.
    pub key: u64,
    /// 1 if the set had the key, else 0.
    pub found: u64,
}

impl Asking for Lookup {
    ghost number = { key_looked_up };

    ghost written = { lookup_of };

    fn number(&self) -> u64 {
        self.key
    }

    fn answered(query: &Query) -> Lookup {
        Lookup {
            key: query.key.get(),
            found: u64::from(query.found),
        }
    }
}

/// Looks up each of these keys: `Member::contains_many` of `nm_set`. Returns `Done`, and writes
/// each `found`. Errors: `Key`: one of the numbers is no key. `Busy`, `Pending`, `Pinned`,
/// `NoMemory`, `Closed`, `InUse`, `Kind`.
#[unsafe(no_mangle)]
pub extern "C" fn nm_worker_contains_many(
    alloc: Global,
    worker: &mut Handle,
    lookups: &mut [Lookup],
    tries: u32,
) -> i32
    ensures { IsCodeOf (OfWorker (TellsContainsMany tries lookups.old lookups.new)
        (lookups.new ≡ lookups.old) (held_by worker.old) (held_by worker.new)) result }
{
    by_handle!(alloc, worker, Worker(member) => contains_many(alloc, member, lookups, tries))
}

fn contains_many(alloc: Global, member: &mut Member, lookups: &mut [Lookup], tries: u32) -> Outcome
    ensures { HasDone (TellsContainsMany tries lookups.old lookups.new) member.old member.new result }
{
    let mut queries = match queries_of(alloc, lookups) {
        Ok(queries) => queries,
        Err(told) => return told,
    };
    match ask(member, &mut queries, tries) {
        Ok(()) => {
            write_answers(lookups, &queries);
            Outcome::Done
        }
        Err(fault) => Outcome::of_fault(fault),
    }
}

/// Asks the worker for all of these. In a function of its own the walk has all registers.
#[inline(never)]
fn ask(member: &mut Member, queries: &mut Vec<Query>, tries: u32) -> Result<(), CallFault>
    ensures tree { member.new.tree ≡ member.old.tree }
    ensures says { AskedMany member.old.tree.layout tries queries.old.items queries.new.items
        member.old.worker member.new.worker result }
{
    member.contains_many(queries.as_mut_slice(), tries)
}

/// Returns whether each of these numbers is a key.
fn are_keys<A: Asking>(lookups: &[A]) -> bool
    ensures yes { result ≡ true → AreKeys A.number lookups.now }
    ensures no { result ≡ false → AreKeys A.number lookups.now → ⊥ }
{
    lookups.iter().all(|lookup| lookup.number() <= MOST_KEY)
}

/// Makes a query of each of these keys. Errors: `Key` if one of the numbers is no key, and else
/// `NoMemory`.
pub(crate) fn queries_of<A: Asking>(alloc: Global, lookups: &[A]) -> Result<Vec<Query>, Outcome>
    ensures keys { IfOk result (λ v. map key_of v.items ≡ map A.number lookups.now) }
    ensures unasked { IfErr result (λ o. IsUnasked A.number lookups.now o) }
{
    if !are_keys(lookups) {
        return Err(Outcome::Key);
    }
    let Ok(mut queries) = Vec::with_capacity(alloc, lookups.len()) else {
        return Err(Outcome::NoMemory);
    };
    for lookup in lookups {
        let Some(key) = Key::new(lookup.number()) else {
            return Err(Outcome::Key);
        };
        if queries.push(Query::new(key)).is_err() {
            return Err(Outcome::NoMemory);
        }
    }
    Ok(queries)
}

/// Writes each query with its answer.
pub(crate) fn write_answers<A: Asking>(lookups: &mut [A], queries: &[Query])
    requires { length queries.now ≡ length lookups.old }
    ensures { lookups.new ≡ map A.written queries.now }
{
    for index in 0..lookups.len() {
        lookups[index] = A::answered(&queries[index]);
    }
}
