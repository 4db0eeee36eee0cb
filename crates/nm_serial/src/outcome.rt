//! The end of a script: it closes the tree and writes the last lines.
ghost use Rattle.std.specs.Prelude.{◌≡◌, ◌<◌, ◌^◌, ◌++◌, All, IfOk, OnOk, IfErr};
ghost use Rattle.nm_steps.specs.Steps.{IsOf};
ghost use Rattle.nm_edge.specs.declared.placement.Fit.TheVariants.{FirstFit};
ghost use Rattle.nm_tree.specs.Closing.{given_in};
ghost use Rattle.nm_tree.specs.Trees.{IsNewTree};
ghost use Rattle.nm_tree.specs.Workers.{waiting_in};
ghost use Rattle.nm_serial.specs.Endings.{IsEnding, worker_lines, ending_lines};

use crate::closed_lines::{put_closed_places, put_worker};
use nm_epoch::HeldQueue;
use nm_files::read::fault::RunFault;
use nm_files::read::header::Header;
use nm_files::write::last_lines::put_keys_line;
use nm_tree::{CloseError, CloseReason, Counts, Fit, Report, Tree, Worker};
use std::alloc::{AllocError, Global};

/// Makes the tree of a header with its workers. They claim the lowest slot that they can, so that a
/// script determines which slots it uses.
pub(crate) fn open(alloc: Global, header: &Header) -> Result<(Tree, Vec<Worker>), RunFault>
    ensures new { IfOk result (λ r. IsNewTree header.now.layout FirstFit r.0 r.1.items) }
    ensures err { IfErr result (λ e. e ≡ RunFault.NoMemory) }
{
    match Tree::of(alloc, header.layout, Fit::FirstFit) {
        Ok(opened) => Ok(opened),
        Err(_) => Err(RunFault::NoMemory),
    }
}

/// Returns how many nodes wait in these queues.
fn queued_in(queues: &[HeldQueue]) -> u64
    requires { waiting_in queues.now < 2 ^ 64 }
    ensures { result ≡ waiting_in queues.now }
{
    let mut queued = 0;
    for held in queues {
        queued += u64::from(held.queue.len());
    }
    queued
}

/// Appends a line for the worker of each queue, with its counts, and takes all nodes out of the
/// queues.
fn put_workers(out: &mut Vec<u8>, queues: &mut [HeldQueue]) -> Result<(), AllocError>
    ensures { OnOk result (out.new.items ≡ out.old.items ++ worker_lines queues.old) }
{
    let Some((held, rest)) = queues.split_first_mut() else {
        return Ok(());
    };
    let counts = Counts::of(held);
    put_worker(
        out,
        held.origin,
        counts.retired,
        counts.freed,
        &mut held.queue,
    )?;
    put_workers(out, rest)
}

/// Appends the last lines: a line for each worker, the keys, and the numbers of slots in each
/// place.
fn put_report(out: &mut Vec<u8>, report: &mut Report) -> Result<(), AllocError>
    requires few { waiting_in report.old.queues.items < 2 ^ 64 }
    ensures { OnOk result (out.new.items
        ≡ out.old.items ++ ending_lines report.old.queues.items report.old.keys.items
        report.old.free report.old.reached) }
{
    let queued = queued_in(report.queues.as_slice());
    put_workers(out, report.queues.as_mut_slice())?;
    put_keys_line(out, report.keys.as_slice())?;
    put_closed_places(out, report.free, report.reached, queued)
}

/// Closes the tree and appends the last lines. The workers must cover all workers of the tree.
pub(crate) fn put_end(out: &mut Vec<u8>, tree: Tree, workers: Vec<Worker>) -> Result<(), RunFault>
    requires own { All (λ w. IsOf tree w.pass) workers.items }
    requires whole { given_in workers.items ≡ tree.layout.workers }
    ensures text { OnOk result
        ((text : _) × IsEnding tree workers.items text × (out.new.items ≡ out.old.items ++ text)) }
    ensures err { IfErr result (λ e. e ≡ RunFault.NoMemory) }
{
    let mut report = match tree.end(workers) {
        Ok(ended) => ended.into_report(),
        Err(
            CloseError {
                reason: CloseReason::NoMemory,
                ..
            },
        ) => return Err(RunFault::NoMemory),
        Err(
            CloseError {
                reason: CloseReason::NotAll { .. } | CloseReason::Attached,
                ..
            },
        ) => unreachable!(),
    };
    match put_report(out, &mut report) {
        Ok(()) => Ok(()),
        Err(_) => Err(RunFault::NoMemory),
    }
}
