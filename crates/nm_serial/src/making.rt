//! One line of a worker: a call of the set, or a refusal without a call.
ghost use Rattle.std.specs.Prelude.{◌≡◌, length, IfSome};
ghost use Rattle.nm_steps.specs.Steps.{IsOf};
ghost use Rattle.nm_serial.specs.Makes.{HasMade, HasSearched, IsOwnCall, HasHeld, HasUnpinned};
ghost use Rattle.nm_tree.specs.Answers.{HasAnswered, HasInserted, HasDeleted};

use crate::answer::{Answer, Refusal, of_advance, of_change, of_collection, of_pin};
use nm_edge::Key;
use nm_files::read::entry::ScriptCall;
use nm_tree::{Tree, Worker};

/// Makes a look-up, unless the worker is pinned by its caller.
fn has(tree: &Tree, worker: &mut Worker, key: Key, tries: u32) -> Option<Answer>
    requires own { IsOf tree.now worker.old.pass }
    ensures own { IsOf tree.now worker.new.pass }
    ensures number { worker.new.pass.view.number ≡ worker.old.pass.view.number }
    ensures queues { length worker.new.queues ≡ length worker.old.queues }
    ensures did { IfSome result
        (HasSearched (HasAnswered tree.now.layout tries key worker.old worker.new) worker.old
        worker.new) }
{
    if worker.held().is_some() {
        return Some(Answer::Refused(Refusal::Held));
    }
    of_change(tree.has(worker, key, tries))
}

/// Makes an insert, unless the worker is pinned by its caller.
#[tactic(auto, using(crate::proofs::CrewLemmas::keeps_many))]
fn insert(tree: &Tree, worker: &mut Worker, key: Key, tries: u32) -> Option<Answer>
    requires own { IsOf tree.now worker.old.pass }
    ensures own { IsOf tree.now worker.new.pass }
    ensures number { worker.new.pass.view.number ≡ worker.old.pass.view.number }
    ensures queues { length worker.new.queues ≡ length worker.old.queues }
    ensures did { IfSome result
        (HasSearched (HasInserted tree.now.layout tries key worker.old worker.new) worker.old
        worker.new) }
{
    if worker.held().is_some() {
        return Some(Answer::Refused(Refusal::Held));
    }
    of_change(tree.insert(worker, key, tries))
}

/// Makes a delete, unless the worker is pinned by its caller.
#[tactic(auto, using(crate::proofs::CrewLemmas::keeps_many))]
fn delete(tree: &Tree, worker: &mut Worker, key: Key, tries: u32) -> Option<Answer>
    requires own { IsOf tree.now worker.old.pass }
    ensures own { IsOf tree.now worker.new.pass }
    ensures number { worker.new.pass.view.number ≡ worker.old.pass.view.number }
    ensures queues { length worker.new.queues ≡ length worker.old.queues }
    ensures did { IfSome result
        (HasSearched (HasDeleted tree.now.layout tries key worker.old worker.new) worker.old
        worker.new) }
{
    if worker.held().is_some() {
        return Some(Answer::Refused(Refusal::Held));
    }
    of_change(tree.delete(worker, key, tries))
}

/// Pins the worker for its caller, unless it is pinned already.
fn pin(tree: &Tree, worker: &mut Worker, tries: u32) -> Answer
    requires own { IsOf tree.now worker.old.pass }
    ensures own { IsOf tree.now worker.new.pass }
    ensures number { worker.new.pass.view.number ≡ worker.old.pass.view.number }
    ensures queues { length worker.new.queues ≡ length worker.old.queues }
    ensures did { HasHeld tries worker.old worker.new result }
{
    if worker.held().is_some() {
        return Answer::Refused(Refusal::Held);
    }
    of_pin(tree.pin(worker, tries))
}

/// Ends the caller's pin, if there is one.
fn unpin(tree: &Tree, worker: &mut Worker) -> Answer
    requires own { IsOf tree.now worker.old.pass }
    ensures own { IsOf tree.now worker.new.pass }
    ensures number { worker.new.pass.view.number ≡ worker.old.pass.view.number }
    ensures queues { length worker.new.queues ≡ length worker.old.queues }
    ensures did { HasUnpinned worker.old worker.new result }
{
    if worker.held().is_none() {
        return Answer::Refused(Refusal::Idle);
    }
    tree.unpin(worker);
    Answer::Left
}

/// Makes a call that involves no other worker, unless the worker may not make it. Returns `None` if
/// memory was refused.
#[tactic(auto, using(crate::proofs::CrewLemmas::keeps_many, crate::proofs::CrewLemmas::lost_many))]
pub(crate) fn make(tree: &Tree, worker: &mut Worker, call: ScriptCall, tries: u32) -> Option<Answer>
    requires own { IsOf tree.now worker.old.pass }
    requires alone { IsOwnCall call }
    ensures own { IsOf tree.now worker.new.pass }
    ensures number { worker.new.pass.view.number ≡ worker.old.pass.view.number }
    ensures queues { length worker.new.queues ≡ length worker.old.queues }
    ensures did { IfSome result (HasMade tree.now tries call worker.old worker.new) }
{
    match call {
        ScriptCall::Has(key) => has(tree, worker, key, tries),
        ScriptCall::Insert(key) => insert(tree, worker, key, tries),
        ScriptCall::Delete(key) => delete(tree, worker, key, tries),
        ScriptCall::Finish => of_change(tree.finish(worker, tries)),
        ScriptCall::Pin => Some(pin(tree, worker, tries)),
        ScriptCall::Unpin => Some(unpin(tree, worker)),
        ScriptCall::Advance => Some(of_advance(tree.advance(worker))),
        ScriptCall::Collect => Some(of_collection(tree.collect(worker))),
        ScriptCall::Resign(_) => unreachable!(),
    }
}
