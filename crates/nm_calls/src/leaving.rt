//! Unpins at the end of a call, with or without an answer.
ghost use Rattle.std.specs.Prelude.{◌≡◌, ℕ, false};
ghost use Rattle.nm_model.specs.declared.event.Event.TheVariants.{Leave, LeaveWith};
ghost use Rattle.nm_model.specs.declared.event.Op.{Op};
ghost use Rattle.nm_model.specs.declared.reply.Reply.TheVariants.{Departed};
ghost use Rattle.nm_order.specs.Facts.Fact.{CallIs};
ghost use Rattle.nm_steps.specs.Steps.{PassView, IsOf, TakesStep};
ghost use Rattle.nm_epoch.specs.Resting.{IsResting, KeepsHands, epochs};
ghost use Rattle.nm_walks.specs.Telling.{Tells};
ghost use Rattle.nm_calls.specs.Leaving.{IsItsAnswer, HasChangedNothing};
ghost use Rattle.nm_calls.specs.Moments.{AnswerHasMoment, HadNoCall};

use nm_epoch::{unpin, unpin_with};
use nm_steps::{Pass, Shared};

/// Unpins without an answer, in one step. The call must have linked nothing and flagged nothing.
pub fn leave(shared: &Shared, pass: &mut Pass)
    requires own { IsOf shared.now pass.old }
    requires unchanged { HasChangedNothing pass.old }
    ensures took { TakesStep pass.old pass.new Leave Departed }
    ensures rests { IsResting pass.new }
    ensures hands { KeepsHands pass.old pass.new }
{
    unpin(shared, pass);
}

/// Unpins with the answer of the call, in one step. The log must show that answer. Its moment
/// (linearization point) is in the call: it is later than all that the worker had seen at any earlier
/// time when it had no call.
pub fn answer(shared: &Shared, pass: &mut Pass, answer: bool)
    requires own { IsOf shared.now pass.old }
    requires labelled { (epochs pass.old).unlabelled ≡ false }
    requires shown { IsItsAnswer pass.old answer }
    ensures took { TakesStep pass.old pass.new (LeaveWith answer) Departed }
    ensures moment { (o : PassView) (op : Op) (k : ℕ) → HadNoCall o pass.old
        → Tells pass.old (CallIs op k) → AnswerHasMoment o pass.new op k answer }
    ensures rests { IsResting pass.new }
    ensures hands { KeepsHands pass.old pass.new }
{
    pass.know_run();
    unpin_with(shared, pass, answer);
    pass.know_run();
}
