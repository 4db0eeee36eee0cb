//! Writes the summary of the last state of a core.
ghost use Rattle.std.specs.Prelude.{◌≡◌, ◌<◌, ◌++◌, ℕ, Bool, List, IsSome, OnOk};
ghost use Rattle.nm_edge.specs.Layouts.{Layout};
ghost use Rattle.nm_model.specs.declared.event.Event.{Event};
ghost use Rattle.nm_model.specs.Ordered.{opening_of, after_in};
ghost use Rattle.nm_model.specs.Reports.{ledger_of};
ghost use Rattle.nm_replay.specs.LastState as spec;

use nm_core::Core;
use nm_files::read::header::Header;
use nm_files::write::last_lines::{put_epoch, put_keys_line, put_ledger, put_places};
use std::alloc::AllocError;

/// Appends the lines of each worker, in the order of their numbers.
fn put_ledgers(out: &mut Vec<u8>, workers: u32, core: &Core) -> Result<(), AllocError>
    ensures { OnOk result (out.new.items
        ≡ out.old.items ++ spec.workers_lines core.now.state workers) }
{
    for worker in 0..workers {
        if let Some(ledger) = core.ledger(worker) {
            put_ledger(out, worker, ledger)?;
        }
    }
    Ok(())
}

/// Appends the line of the keys, only in an ordered file.
fn put_keys_in(out: &mut Vec<u8>, is_ordered: bool, core: &Core) -> Result<(), AllocError>
    ensures { OnOk result (out.new.items
        ≡ out.old.items ++ spec.keys_line_in is_ordered core.now.state) }
{
    if !is_ordered {
        return Ok(());
    }
    let keys = core.keys()?;
    put_keys_line(out, keys.as_slice())
}

/// Appends the summary of the last state, for a file with that header: ledgers, epoch, numbers of
/// slots and, in an ordered file, keys.
#[tactic(auto, unfolding(crate::specs::LastState::last_lines))]
pub fn put_last_lines(out: &mut Vec<u8>, header: &Header, core: &Core) -> Result<(), AllocError>
    ensures { OnOk result (out.new.items
        ≡ out.old.items ++ spec.last_lines header.now core.now.state) }
{
    put_ledgers(out, header.layout.workers(), core)?;
    put_epoch(out, core.epoch())?;
    put_places(out, core.places())?;
    put_keys_in(out, header.forms.is_extended, core)
}

/// Law: for every run of an ordered or of a plain core, each worker of the tree has a ledger. So
/// each has its three lines.
pub fn each_worker_is_told()
    ensures { (L : Layout) (is_ordered : Bool) (turns : List (ℕ × Event)) (worker : ℕ)
        → worker < L.workers → IsSome
        (ledger_of (after_in (opening_of L is_ordered) turns).state worker) }
{}
