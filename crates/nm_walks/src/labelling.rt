//! The label (retire epoch) of a cut.
ghost use Rattle.std.specs.Prelude.{◌≡◌, true};
ghost use Rattle.nm_model.specs.declared.event.Event.TheVariants.{Sight};
ghost use Rattle.nm_model.specs.declared.reply.Reply.TheVariants.{Labelled};
ghost use Rattle.nm_steps.specs.Rules.{knowledge};
ghost use Rattle.nm_steps.specs.Steps.{IsOf, Stepped};
ghost use Rattle.nm_epoch.specs.Resting.{epochs};
ghost use Rattle.nm_epoch.specs.Collecting.{TakesLabels};
ghost use Rattle.nm_walks.specs.Telling.{GoesOn};
ghost use Rattle.nm_walks.specs.Labelling.{OnlyLabels};

use nm_epoch::label as label_cut;
use nm_steps::{Pass, Shared};

/// Reads the epoch, labels the nodes of the worker's last splice with it, and returns it. Cost: one
/// step.
pub(crate) fn label(shared: &Shared, pass: &mut Pass) -> u64
    requires own { IsOf shared.now pass.old }
    requires cut { (epochs pass.old).unlabelled ≡ true }
    ensures step { Stepped pass.old pass.new Sight (Labelled result) }
    ensures on { GoesOn pass.old pass.new }
    ensures only { OnlyLabels result pass.old pass.new }
    ensures queues { TakesLabels result (knowledge pass.old.view) (knowledge pass.new.view) }
{
    pass.know_run();
    label_cut(shared, pass)
}
