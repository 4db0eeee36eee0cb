//! The command, from a reader to a writer.
ghost use Rattle.std.specs.Prelude.{◌≡◌, ◌≢◌, drop, Some, IfSome, IfOk, OnOk, IfErr, IsOk};
ghost use Rattle.nm_files.specs.Files.{GivesWhatIsSaid, IfLine, HasJudged};
ghost use Rattle.nm_replay.specs.Output.{opening_core, output_of, Writes};

use crate::output::text_of;
use nm_core::Core;
use nm_files::read::fault::RunFault;
use nm_files::read::file::schedule_of;
use nm_files::read::header::Header;
use nm_files::stream::{LIMIT, input_of, write_text};
use std::alloc::Global;
use std::io::{Read, Write};

/// Makes the core that runs a file with that header.
fn core_of(alloc: Global, header: &Header) -> Result<Core, RunFault>
    ensures opening { IfOk result (λ core. core ≡ opening_core header.now) }
    ensures err { IfErr result (λ e. e ≡ RunFault.NoMemory) }
{
    match Core::of(alloc, header.layout, header.forms.is_extended) {
        Ok(core) => Ok(core),
        Err(_) => Err(RunFault::NoMemory),
    }
}

/// Returns the output for the bytes of a file.
fn output(alloc: Global, bytes: &[u8]) -> Result<Vec<u8>, RunFault>
    ensures { GivesWhatIsSaid (λ v. v.items) result (output_of bytes.now) }
{
    let schedule = schedule_of(alloc, bytes)?;
    let mut core = core_of(alloc, &schedule.header)?;
    let trace = match core.run(schedule.entries) {
        Ok(trace) => trace,
        Err(_) => return Err(RunFault::NoMemory),
    };
    match text_of(
        alloc,
        schedule.body,
        trace.as_slice(),
        &schedule.header,
        &core,
    ) {
        Ok(text) => Ok(text),
        Err(_) => Err(RunFault::NoMemory),
    }
}

/// Runs the schedule that the reader gives. Writes each of its lines with the outcome of its event,
/// and then a summary of the last state: each worker's ledger, the epoch, the numbers of slots by
/// their place, and in an ordered file the keys of the set.
///
/// The whole input, up to `LIMIT` bytes, is read before a line is checked. Nothing is written
/// before all lines are checked and run. An event that the core refuses is written with the number
/// of the refusal, and is no fault.
pub fn replay<R: Read, W: Write>(
    alloc: Global,
    reader: &mut R,
    writer: &mut W,
) -> Result<(), RunFault>
    // The output of the input is written, and nothing else.
    ensures ok { OnOk result (IfSome (R.remaining reader.old)
        (λ input. Writes (output_of input) (W.contents writer.old) (W.contents writer.new))) }
    // The error names the first faulty line, with the least reason.
    ensures line { IfErr result
        (λ e. IfSome (R.remaining reader.old)
        (λ input. IfLine e (λ line reason. output_of input
        ≡ Err (record { line = line; reason = reason })))) }
    // A write error is returned only if no line is faulty.
    ensures write { IfErr result
        (λ e. e ≡ RunFault.Write
        → IfSome (R.remaining reader.old) (λ input. IsOk (output_of input))) }
    // If the input was judged, it was read to its end, or to the limit.
    ensures read { HasJudged result
        → IfSome (R.remaining reader.old)
        (λ input. R.remaining reader.new ≡ Some (drop LIMIT input)) }
    // After any error except `Write` nothing was written.
    ensures unwritten { IfErr result (λ e. e ≢ RunFault.Write → writer.new ≡ writer.old) }
{
    let bytes = input_of(alloc, reader)?;
    let text = output(alloc, bytes.as_slice())?;
    write_text(writer, text.as_slice())
}
