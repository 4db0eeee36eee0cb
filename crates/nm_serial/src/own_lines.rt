//! The lines of one worker, in their order.
ghost use Rattle.std.specs.Prelude.{◌≡◌, ◌≤◌, All, length, IfOk, IfErr};
ghost use Rattle.nm_steps.specs.Steps.{IsOf};
ghost use Rattle.nm_serial.specs.Makes.{HasMade, HasStopped, IsOwnCall, PlaysOwn, StopsOwn};

use crate::answer::Answer;
use crate::gate::Gate;
use crate::making::make;
use nm_files::read::entry::ScriptCall;
use nm_tree::{Tree, Worker};
use std::alloc::Global;

/// Why a worker has not played all of its lines.
#[derive(Clone, Copy, Debug, PartialEq, Eq)]
pub(crate) enum Stop {
    /// The gate stopped it before this line.
    Gate { line: u32 },
    /// Memory was refused.
    NoMemory,
}

/// What a worker needs to play its lines: the gate, the tree, the number of tries of a call, and
/// all calls with their workers, of which it plays its own.
#[derive(Drop)]
pub(crate) struct Lines<'a, G: Gate> {
    pub(crate) gate: &'a G,
    pub(crate) tree: &'a Tree,
    pub(crate) tries: u32,
    pub(crate) calls: &'a [(u32, ScriptCall)],
}

/// Plays one line, if the gate lets the worker play it.
fn play_line<G: Gate>(
    lines: &Lines<'_, G>,
    worker: &mut Worker,
    line: u32,
    call: &ScriptCall,
) -> Result<Answer, Stop>
    requires own { IsOf lines.now.tree.now worker.old.pass }
    requires plain { IsOwnCall call.now }
    ensures own { IsOf lines.now.tree.now worker.new.pass }
    ensures number { worker.new.pass.view.number ≡ worker.old.pass.view.number }
    ensures queues { length worker.new.queues ≡ length worker.old.queues }
    ensures did { IfOk result (λ a. G.lets lines.now.gate.now worker.old.pass.view.number line
        × HasMade lines.now.tree.now lines.now.tries call.now worker.old worker.new a) }
    ensures stopped { IfErr result
        (HasStopped (G.stops lines.now.gate.now worker.old.pass.view.number line) line worker.old
        worker.new) }
{
    if !lines.gate.turn(worker.number(), line) {
        return Err(Stop::Gate { line });
    }
    match make(lines.tree, worker, *call, lines.tries) {
        Some(answer) => Ok(answer),
        None => Err(Stop::NoMemory),
    }
}

/// Plays all lines of a worker, among those of a script. The first of these is the second line of
/// the file.
pub(crate) fn play_own<G: Gate>(
    alloc: Global,
    lines: &Lines<'_, G>,
    worker: &mut Worker,
) -> Result<Vec<Answer>, Stop>
    requires own { IsOf lines.now.tree.now worker.old.pass }
    requires plain { All (λ e. IsOwnCall e.1) lines.now.calls.now }
    requires few { length lines.now.calls.now ≤ 100000 }
    ensures own { IsOf lines.now.tree.now worker.new.pass }
    ensures number { worker.new.pass.view.number ≡ worker.old.pass.view.number }
    ensures queues { length worker.new.queues ≡ length worker.old.queues }
    ensures did { IfOk result
        (λ v. PlaysOwn (G.lets lines.now.gate.now) lines.now.tree.now lines.now.tries
        worker.old.pass.view.number 2 lines.now.calls.now v.items worker.old worker.new) }
    ensures stopped { IfErr result
        (StopsOwn (G.lets lines.now.gate.now) (G.stops lines.now.gate.now) lines.now.tree.now
        lines.now.tries worker.old.pass.view.number 2 lines.now.calls.now worker.old worker.new) }
{
    let number = worker.number();
    let mut answers = Vec::new(alloc);
    let mut line = 2u32;
    for entry in lines.calls {
        if entry.0 == number {
            let answer = play_line(lines, worker, line, &entry.1)?;
            answers.push(answer).map_err(|_| Stop::NoMemory)?;
        }
        line += 1;
    }
    Ok(answers)
}
