//! Reads the epoch and the workers' announcements.
ghost use Rattle.std.specs.Prelude.{◌≡◌, ◌<◌, Some, IsSome, MatchOption, true, false};
ghost use Rattle.nm_steps.specs.Steps.{IsOf, sight_reply, Continues};
ghost use Rattle.nm_epoch.specs.Reading.{Reads};
ghost use Rattle.nm_epoch.specs.Resting.{epochs};
ghost use Rattle.nm_epoch.specs.Scans.{LooksAt, lets_pass};
ghost use Rattle.nm_order.specs.Reads.{sight_epoch};

use nm_steps::{Pass, Shared, Sighted};

/// Returns the epoch that a sight found.
fn epoch_of(sighted: Sighted) -> u64
    ensures { sight_epoch (sight_reply sighted) ≡ Some result }
{
    match sighted {
        Sighted::Saw(epoch)
        | Sighted::Labelled(epoch)
        | Sighted::Pinned(epoch)
        | Sighted::Missed(epoch) => epoch,
    }
}

/// Reads the epoch. If a cut waits for its label, the epoch becomes this label.
pub(crate) fn read(shared: &Shared, pass: &mut Pass) -> u64
    requires { IsOf shared.now pass.old }
    ensures { Reads result pass.old pass.new }
{
    epoch_of(shared.sight(pass))
}

/// Returns the epoch that a worker announces, or, for the calling worker `me`, the epoch at which
/// it is pinned.
pub(crate) fn look(shared: &Shared, pass: &mut Pass, me: u32, worker: u32) -> Option<u64>
    requires own { IsOf shared.now pass.old }
    requires me { me ≡ pass.old.view.number }
    requires there { worker < shared.now.layout.workers }
    requires seen { IsSome (epochs pass.old).seen }
    ensures on { Continues pass.old pass.new }
    ensures found { LooksAt me (epochs pass.old).pin worker result pass.old.view.log
        pass.new.view.log }
{
    pass.know_run();
    if worker == me {
        pass.pinned()
    } else {
        shared.scan(pass, worker)
    }
}

/// Returns the epoch at which a worker was found, if it differs from this one, so that the worker
/// holds this one back.
pub(crate) fn elsewhere(found: Option<u64>, epoch: u64) -> Option<u64>
    ensures { MatchOption result (lets_pass found epoch ≡ true)
        (λ at. (found ≡ Some at) × (lets_pass found epoch ≡ false)) }
{
    match found {
        Some(at) if at != epoch => Some(at),
        _ => None,
    }
}
