//! Finds the workers that hold the epoch back.
ghost use Rattle.std.specs.Prelude.{◌+◌, ◌≤◌, length};
ghost use Rattle.nm_steps.specs.Steps.{IsOf};
ghost use Rattle.nm_epoch.specs.Resting.{GoesOnSettled, epochs};
ghost use Rattle.nm_epoch.specs.Watches.{IsBehind};

use crate::answers::Behind;
use crate::looking::{elsewhere, look, read};
use nm_steps::{Pass, Shared};

/// Reads the epoch, and finds the workers that hold it back. A worker's bit is set exactly if it
/// was found announcing another epoch than the one that was read; for the calling worker its own
/// pin counts. Cost: as many steps as there are workers.
///
/// This finds a worker that stalls while it is pinned (Fraser, 2004, chapter 5: one such worker
/// holds back all reclamation). If a cut waits for its label, the first step labels it.
pub fn behind(shared: &Shared, pass: &mut Pass) -> Behind
    requires { IsOf shared.now pass.old }
    ensures after { GoesOnSettled pass.old pass.new }
    ensures part { IsBehind shared.now.layout.workers pass.old.view.number (epochs pass.new).pin
        pass.old.view.log pass.new.view.log result }
    ensures steps { length pass.new.view.log
        ≤ length pass.old.view.log + shared.now.layout.workers }
{
    let epoch = read(shared, pass);
    let me = pass.number();
    let workers = shared.layout().workers();
    let mut mask = 0;
    for worker in 0..workers {
        let found = look(shared, pass, me, worker);
        if elsewhere(found, epoch).is_some() {
            mask += 1 << worker;
        }
    }
    Behind { epoch, mask }
}
