//! Managed calls that remove the least or the greatest key, of all keys or of those up to a bound, by
//! the handle of a worker.
#![tactic(auto, using(crate::proofs::Owners::asked_of_owner))]

ghost use Rattle.std.specs.Prelude.{◌≡◌, ◌≢◌, true, false, IfSome};
ghost use Rattle.nm_set_c.specs.Handles.{held_by};
ghost use Rattle.nm_set_c.specs.NextKeys.{TellsPopFirst, TellsPopFirstBelow, TellsPopLast, TellsPopLastFrom, found_written, of_found, unfinished};
ghost use Rattle.nm_set_c.specs.Outcomes.{IsCodeOf};
ghost use Rattle.nm_set_c.specs.Owners.{HasDone, OfWorker};

use crate::claiming::by_handle;
use crate::handle::Handle;
use crate::next_key::tell_found;
use crate::outcome::Outcome;
use nm_edge::Key;
use nm_set::{CallFault, Member, Options};
use std::alloc::Global;

/// Removes the least key from the set: `Member::pop_first` of `nm_set`. Returns `Yes` and writes the
/// key, or `No` if the set is empty. With `Unfinished` it writes the key too, which will be removed
/// by this call and is pending. Errors: `Busy`, `Pending`, `Pinned`, `NoMemory`, `Closed`, `InUse`,
/// `Kind`.
#[unsafe(no_mangle)]
pub extern "C" fn nm_worker_pop_first(
    alloc: Global,
    worker: &mut Handle,
    options: &Options,
    taken: &mut u64,
) -> i32
    ensures tells { IsCodeOf (OfWorker (TellsPopFirst options.now taken.old taken.new)
        (taken.new ≡ taken.old) (held_by worker.old) (held_by worker.new)) result }
{
    by_handle!(alloc, worker, Worker(member) => pop_first(member, options, taken))
}

fn pop_first(member: &mut Member, options: &Options, taken: &mut u64) -> Outcome
    ensures tells { HasDone (TellsPopFirst options.now taken.old taken.new) member.old member.new result }
{
    let answer = member.pop_first(options);
    let pending = member.pending();
    tell_taken(answer, pending, taken)
}

/// Removes the greatest key from the set, and returns and writes as `nm_worker_pop_first` does:
/// `Member::pop_last` of `nm_set`.
#[unsafe(no_mangle)]
pub extern "C" fn nm_worker_pop_last(
    alloc: Global,
    worker: &mut Handle,
    options: &Options,
    taken: &mut u64,
) -> i32
    ensures tells { IsCodeOf (OfWorker (TellsPopLast options.now taken.old taken.new)
        (taken.new ≡ taken.old) (held_by worker.old) (held_by worker.new)) result }
{
    by_handle!(alloc, worker, Worker(member) => pop_last(member, options, taken))
}

fn pop_last(member: &mut Member, options: &Options, taken: &mut u64) -> Outcome
    ensures tells { HasDone (TellsPopLast options.now taken.old taken.new) member.old member.new result }
{
    let answer = member.pop_last(options);
    let pending = member.pending();
    tell_taken(answer, pending, taken)
}

/// Removes the least key from the set, if it is below `below`, and returns and writes as
/// `nm_worker_pop_first` does, or returns `No` if no key is below it: `Member::pop_first_below` of
/// `nm_set`.
#[unsafe(no_mangle)]
pub extern "C" fn nm_worker_pop_first_below(
    alloc: Global,
    worker: &mut Handle,
    below: u64,
    options: &Options,
    taken: &mut u64,
) -> i32
    ensures tells { IsCodeOf (OfWorker (TellsPopFirstBelow below options.now taken.old taken.new)
        (taken.new ≡ taken.old) (held_by worker.old) (held_by worker.new)) result }
{
    by_handle!(alloc, worker, Worker(member) => pop_first_below(member, below, options, taken))
}

fn pop_first_below(member: &mut Member, below: u64, options: &Options, taken: &mut u64) -> Outcome
    ensures tells { HasDone (TellsPopFirstBelow below options.now taken.old taken.new) member.old
        member.new result }
{
    let answer = member.pop_first_below(below, options);
    let pending = member.pending();
    tell_taken(answer, pending, taken)
}

/// Removes the greatest key from the set, if it is not below `from`, and returns and writes as
/// `nm_worker_pop_first` does, or returns `No` if each key is below it: `Member::pop_last_from` of
/// `nm_set`.
#[unsafe(no_mangle)]
pub extern "C" fn nm_worker_pop_last_from(
    alloc: Global,
    worker: &mut Handle,
    from: u64,
    options: &Options,
    taken: &mut u64,
) -> i32
    ensures tells { IsCodeOf (OfWorker (TellsPopLastFrom from options.now taken.old taken.new)
        (taken.new ≡ taken.old) (held_by worker.old) (held_by worker.new)) result }
{
    by_handle!(alloc, worker, Worker(member) => pop_last_from(member, from, options, taken))
}

fn pop_last_from(member: &mut Member, from: u64, options: &Options, taken: &mut u64) -> Outcome
    ensures tells { HasDone (TellsPopLastFrom from options.now taken.old taken.new) member.old
        member.new result }
{
    let answer = member.pop_last_from(from, options);
    let pending = member.pending();
    tell_taken(answer, pending, taken)
}

/// Writes the key that was taken, or the pending one if its remove is unfinished, and returns the
/// outcome.
pub(crate) fn tell_taken(
    answer: Result<Option<Key>, CallFault>,
    pending: Option<Key>,
    taken: &mut u64,
) -> Outcome
    ensures told { result ≡ of_found answer }
    ensures going { answer ≡ unfinished → IfSome pending (λ key. taken.new ≡ key) }
    ensures written { answer ≢ unfinished → taken.new ≡ found_written answer taken.old }
{
    if !is_unfinished(&answer) {
        return tell_found(answer, taken);
    }
    if let Some(key) = pending {
        *taken = key.get();
    }
    Outcome::Unfinished
}

/// Returns whether the key was flagged and is not known to be cut off.
fn is_unfinished(answer: &Result<Option<Key>, CallFault>) -> bool
    ensures yes { result ≡ true → answer.now ≡ unfinished }
    ensures no { result ≡ false → answer.now ≢ unfinished }
{
    matches!(answer, Err(CallFault::Unfinished))
}
