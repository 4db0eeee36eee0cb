//! The workers of a script that one thread plays.
ghost use Rattle.std.specs.Prelude.{◌≡◌, ◌+◌, IfSome};
ghost use Rattle.nm_serial.specs.Crews.{HasDoneAt, HasResignedOrStayed, stands_for};
ghost use Rattle.nm_serial.specs.Makes.{IsOwnCall};
ghost use Rattle.nm_steps.specs.Steps.{IsOf};

use crate::answer::{Answer, Refusal};
use crate::making::make;
use nm_files::read::entry::ScriptCall;
use nm_tree::{ResignReason, Tree, Worker};

/// Makes a call that involves no other worker, by the worker at its place, if it has not resigned.
pub(crate) fn make_at(
    tree: &Tree,
    place: &mut Option<Worker>,
    call: ScriptCall,
    tries: u32,
) -> Option<Answer>
    requires own { IfSome place.old (λ w. IsOf tree.now w.pass) }
    requires alone { IsOwnCall call }
    ensures own { IfSome place.new (λ w. IsOf tree.now w.pass) }
    ensures whole { stands_for place.new ≡ stands_for place.old }
    ensures did { IfSome result (HasDoneAt tree.now tries call place.old place.new) }
{
    match place {
        Some(worker) => make(tree, worker, call, tries),
        None => Some(Answer::Refused(Refusal::Gone)),
    }
}

/// Lets a worker resign to its heir. Returns the heir, and also the leaver if it has not resigned,
/// with the answer; `None` in place of an answer if memory was refused.
#[tactic(auto, using(crate::proofs::CrewLemmas::merged_many))]
pub(crate) fn leave(
    tree: &Tree,
    heir: Worker,
    leaver: Worker,
) -> (Worker, Option<Worker>, Option<Answer>)
    requires heir { IsOf tree.now heir.pass }
    requires leaver { IsOf tree.now leaver.pass }
    ensures heir { IsOf tree.now result.0.pass }
    ensures leaver { IfSome result.1 (λ w. IsOf tree.now w.pass) }
    ensures whole { stands_for (Some result.0) + stands_for result.1
        ≡ stands_for (Some heir) + stands_for (Some leaver) }
    ensures did { IfSome result.2 (HasResignedOrStayed heir leaver result.0 result.1) }
{
    match tree.resign(heir, leaver) {
        Ok(heir) => (heir, None, Some(Answer::Resigned)),
        Err(fault) => {
            let answer = match fault.reason {
                ResignReason::Held => Some(Answer::Refused(Refusal::Held)),
                ResignReason::Pending => Some(Answer::Pending),
                ResignReason::NoMemory => None,
                ResignReason::Number | ResignReason::Attached => unreachable!(),
            };
            (fault.heir, Some(fault.leaver), answer)
        }
    }
}
