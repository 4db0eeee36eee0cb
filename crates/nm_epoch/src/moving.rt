//! Advances the epoch.
ghost use Rattle.std.specs.Prelude.{◌≡◌, ◌+◌, ◌≤◌, ◌<◌, length};
ghost use Rattle.nm_steps.specs.Steps.{IsOf};
ghost use Rattle.nm_epoch.specs.Resting.{GoesOnSettled, epochs};
ghost use Rattle.nm_epoch.specs.Scans.{IsAdvance};

use crate::answers::Advance;
use crate::looking::{elsewhere, look, read};
use nm_edge::LAST_NUMBER;
use nm_steps::{Pass, Shared};

/// Advances the epoch by one, if no worker holds it back. It reads the epoch once, and then each
/// worker's announcement in the order of their numbers. For the calling worker its own pin counts,
/// which takes no step. Cost: at most one step more than there are workers.
///
/// `Moved`: every worker was found idle or at the epoch that was read, and the epoch is now the
/// next one. `Held`: this worker, the first by number, was found at this other epoch. `Lost`: no
/// worker held the epoch back, but another worker moved it on first. `Spent`: no worker held it
/// back, but it is the last epoch, 2^62.
///
/// If a cut waits for its label, the first step labels it. (Fraser, 2004, chapter 5: the epoch
/// advances after every pinned worker has been seen at it.)
pub fn advance(shared: &Shared, pass: &mut Pass) -> Advance
    requires { IsOf shared.now pass.old }
    ensures after { GoesOnSettled pass.old pass.new }
    ensures part { IsAdvance shared.now.layout.workers pass.old.view.number (epochs pass.new).pin
        pass.old.view.log pass.new.view.log result }
    ensures steps { length pass.new.view.log
        ≤ length pass.old.view.log + (shared.now.layout.workers + 1) }
{
    let me = pass.number();
    move_on(shared, pass, me)
}

/// Advances the epoch, for the worker of that number.
fn move_on(shared: &Shared, pass: &mut Pass, me: u32) -> Advance
    requires own { IsOf shared.now pass.old }
    requires me { me ≡ pass.old.view.number }
    requires there { me < shared.now.layout.workers }
    ensures after { GoesOnSettled pass.old pass.new }
    ensures part { IsAdvance shared.now.layout.workers me (epochs pass.new).pin pass.old.view.log
        pass.new.view.log result }
{
    let epoch = read(shared, pass);
    let workers = shared.layout().workers();
    for worker in 0..workers {
        let found = look(shared, pass, me, worker);
        if let Some(at) = elsewhere(found, epoch) {
            return Advance::Held { worker, epoch: at };
        }
    }
    if epoch == LAST_NUMBER {
        return Advance::Spent;
    }
    match shared.advance(pass) {
        Ok(next) => Advance::Moved { epoch: next },
        Err(found) => Advance::Lost { epoch: found },
    }
}
