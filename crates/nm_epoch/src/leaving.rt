//! Unpins, and labels a cut: one step each. Each function is a step of `Shared` with what callers
//! want to know after it: that the worker rests, and what it still holds.
ghost use Rattle.std.specs.Prelude.{◌≡◌, false, true};
ghost use Rattle.nm_model.specs.declared.event.Event.TheVariants.{Sight, Leave, LeaveWith};
ghost use Rattle.nm_model.specs.declared.reply.Reply.TheVariants.{Labelled, Departed};
ghost use Rattle.nm_steps.specs.Rules.{knowledge};
ghost use Rattle.nm_steps.specs.Steps.{IsOf, MayStep, TakesStep};
ghost use Rattle.nm_epoch.specs.Resting.{IsResting, KeepsHands, epochs};
ghost use Rattle.nm_epoch.specs.Collecting.{TakesLabels};

use nm_steps::{Pass, Shared, Sighted};

/// Clears the announcement, and so unpins the worker. A pin for an operation that has linked or
/// flagged can only be left with an answer (`unpin_with`). Cost: one step.
pub fn unpin(shared: &Shared, pass: &mut Pass)
    requires own { IsOf shared.now pass.old }
    requires may { MayStep pass.old Leave }
    ensures took { TakesStep pass.old pass.new Leave Departed }
    ensures rests { IsResting pass.new }
    ensures hands { KeepsHands pass.old pass.new }
{
    shared.leave(pass);
}

/// Clears the announcement, and records the answer to the operation of the pin. Cost: one step.
pub fn unpin_with(shared: &Shared, pass: &mut Pass, answer: bool)
    requires own { IsOf shared.now pass.old }
    requires may { MayStep pass.old (LeaveWith answer) }
    ensures took { TakesStep pass.old pass.new (LeaveWith answer) Departed }
    ensures rests { IsResting pass.new }
    ensures hands { KeepsHands pass.old pass.new }
{
    shared.leave_with(pass, answer);
}

/// Reads the epoch, labels the nodes of the worker's last splice with it, and returns it. The label
/// is taken after the cut, so no worker that is pinned above it can still come to these nodes.
/// Cost: one step.
pub fn label(shared: &Shared, pass: &mut Pass) -> u64
    requires own { IsOf shared.now pass.old }
    requires cut { (epochs pass.old).unlabelled ≡ true }
    ensures took { TakesStep pass.old pass.new Sight (Labelled result) }
    ensures labelled { (epochs pass.new).unlabelled ≡ false }
    ensures private { (knowledge pass.new.view).drafts ≡ (knowledge pass.old.view).drafts }
    ensures queues { TakesLabels result (knowledge pass.old.view) (knowledge pass.new.view) }
{
    let Sighted::Labelled(epoch) = shared.sight(pass) else {
        unreachable!()
    };
    epoch
}
