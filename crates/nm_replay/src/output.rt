//! The output for a schedule.
ghost use Rattle.std.specs.Prelude.{◌≡◌, ◌++◌, codes, IfOk, OnOk};
ghost use Rattle.nm_files.specs.Lines.{parts};
ghost use Rattle.nm_files.specs.Replies.{outcome_text};
ghost use Rattle.nm_replay.specs.LastState.{last_lines};
ghost use Rattle.nm_replay.specs.Output as spec;

use crate::last_state::put_last_lines;
use nm_core::Core;
use nm_files::read::header::Header;
use nm_files::read::pieces::cut;
use nm_files::write::reply::put_outcome;
use nm_model::Turn;
use std::alloc::{AllocError, Global};

/// Appends a line of the file with the outcome of its event.
fn put_line(out: &mut Vec<u8>, line: &[u8], turn: &Turn) -> Result<(), AllocError>
    ensures { OnOk result (out.new.items
        ≡ out.old.items
        ++ (line.now ++ codes " = " ++ outcome_text turn.now.outcome ++ codes "\n")) }
{
    out.extend_from_slice(line)?;
    out.extend_from_slice(b" = ")?;
    put_outcome(out, &turn.outcome)?;
    out.extend_from_slice(b"\n")
}

/// Returns the output: each line with the outcome of its event, and then the summary of the last
/// state.
pub fn text_of(
    alloc: Global,
    body: &[u8],
    turns: &[Turn],
    header: &Header,
    core: &Core,
) -> Result<Vec<u8>, AllocError>
    ensures { IfOk result (λ v. v.items
        ≡ spec.lines_with (parts body.now) turns.now ++ last_lines header.now core.now.state) }
{
    let mut out = Vec::new(alloc);
    let mut rest = Some(body);
    for turn in turns {
        let Some(text) = rest else {
            break;
        };
        let (line, after) = cut(text, b'\n');
        put_line(&mut out, line, turn)?;
        rest = after;
    }
    put_last_lines(&mut out, header, core)?;
    Ok(out)
}

/// Law: for every file that is not ordered, of version 1 or 2, the output shows a run of states, in
/// which each event has the outcome of a plain core, and has no line of keys.
pub fn plain_files_are_runs()
    ensures { spec.PlainFilesAreRuns }
{}
