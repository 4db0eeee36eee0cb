//! The end of a call: it leaves its pin with the answer that its log shows, or with none.
ghost use Rattle.std.specs.Prelude.{◌≡◌, ℕ, false};
ghost use Rattle.nm_model.specs.declared.event.Op.TheVariants.{Insert};
ghost use Rattle.nm_model.specs.declared.reply.Reply.TheVariants.{Departed};
ghost use Rattle.nm_order.specs.Facts.Fact.{CallIs};
ghost use Rattle.nm_steps.specs.Steps.{IsOf, PassView, TakesStep};
ghost use Rattle.nm_epoch.specs.Resting.{IsResting, KeepsHands, epochs};
ghost use Rattle.nm_walks.specs.Telling.{Tells};
ghost use Rattle.nm_calls.specs.Moments.{AnswerHasMoment, HadNoCall};
ghost use Rattle.nm_puts.specs.Puts.{IfAnswered, MayEndWith, leave_of};

use crate::putting::PutOutcome;
use nm_calls::{answer, leave};
use nm_steps::{Pass, Shared};

/// Unpins at the end of a put, in one step. A put that inserted answers true, and one that found the
/// key answers false. One that found the key absent and was to insert nothing leaves without an
/// answer.
pub(crate) fn conclude(shared: &Shared, pass: &mut Pass, put: PutOutcome)
    requires own { IsOf shared.now pass.old }
    requires labelled { (epochs pass.old).unlabelled ≡ false }
    requires shown { MayEndWith pass.old put }
    ensures took { TakesStep pass.old pass.new (leave_of put) Departed }
    ensures moment { (o : PassView) (k : ℕ) → HadNoCall o pass.old
        → Tells pass.old (CallIs Insert k) → IfAnswered put (AnswerHasMoment o pass.new Insert k) }
    ensures rests { IsResting pass.new }
    ensures hands { KeepsHands pass.old pass.new }
{
    match put {
        PutOutcome::Inserted => answer(shared, pass, true),
        PutOutcome::Replaced(_) => answer(shared, pass, false),
        PutOutcome::Other(_) => answer(shared, pass, false),
        PutOutcome::Absent => leave(shared, pass),
    }
}
