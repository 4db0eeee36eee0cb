//! `stress`: the lines of each worker of a script in a thread of its own.
ghost use Rattle.std.specs.Prelude.{◌≡◌, ◌≢◌, ◌≤◌, ◌++◌, drop, length, map, All, Some, IfSome, IfOk, OnOk, IfErr, IsOk};
ghost use Rattle.nm_serial.specs.AnswerLines.{lines};
ghost use Rattle.nm_files.specs.Files.{HasJudged, IfLine};
ghost use Rattle.nm_files.specs.Lines.{parts};
ghost use Rattle.nm_files.specs.Entries.{script_of};
ghost use Rattle.nm_files.specs.declared.read.header.Command.TheVariants.{Stress};
ghost use Rattle.nm_serial.specs.Makes.{IsOwnCall};
ghost use Rattle.nm_serial.specs.Playing.{EndsSo};
ghost use Rattle.nm_serial.specs.Stops.{IfStopped, IsStop};
ghost use Rattle.nm_serial.specs.Texts.{IfGate, IsGateStop, IsStressText, IsWritten, WritesText};
ghost use Rattle.nm_serial.specs.Threads.{all_rows, fault_in, own_rows};
ghost use Rattle.nm_serial.specs.Threads as spec;

use crate::answer::Answer;
use crate::answer_lines::put_line;
use crate::gate::Gate;
use crate::outcome::{open, put_end};
use crate::own_lines::{Lines, Stop};
use crate::threads::{Played, play_apart};
use nm_files::read::entry::ScriptCall;
use nm_files::read::fault::RunFault;
use nm_files::read::file::{Script, script_of};
use nm_files::read::header::Command;
use nm_files::read::pieces::cut;
use nm_files::stream::{LIMIT, input_of, write_text};
use nm_tree::Worker;
use std::alloc::{AllocError, Global};
use std::io::{Read, Write};
use std::sync::Wait;
use std::thread::Threads;

/// Returns the fault of this worker and the later ones, given the fault of the later ones.
fn fault_before(part: &Played, later: Option<RunFault>) -> Option<RunFault>
    requires { IfSome later IsStop }
    ensures fault { result ≡ spec.fault_before part.now.worker.pass.view.number part.now.answers
        later }
    ensures stop { IfSome result IsStop }
{
    match part.answers {
        Ok(_) => later,
        Err(Stop::NoMemory) => Some(RunFault::NoMemory),
        Err(Stop::Gate { line }) => match later {
            Some(RunFault::NoMemory) => Some(RunFault::NoMemory),
            _ => Some(RunFault::Gate {
                worker: part.worker.number(),
                line,
            }),
        },
    }
}

/// Returns why the workers have not all played their lines: `NoMemory` comes first, and otherwise
/// it is the gate's stop of the first worker that was stopped.
fn fault_of(played: &[Played]) -> Option<RunFault>
    ensures fault { result ≡ fault_in played.now }
    ensures stop { IfSome result IsStop }
{
    let (first, rest) = played.split_first()?;
    let later = fault_of(rest);
    fault_before(first, later)
}

/// Appends the lines of one worker with their answers.
fn put_own_lines(
    out: &mut Vec<u8>,
    body: &[u8],
    calls: &[(u32, ScriptCall)],
    worker: u32,
    answers: &[Answer],
) -> Result<(), AllocError>
    ensures { OnOk result (out.new.items
        ≡ out.old.items ++ lines (own_rows worker (parts body.now) calls.now) answers.now) }
{
    let mut rest = Some(body);
    let mut left = answers;
    for entry in calls {
        let Some(text) = rest else {
            return Ok(());
        };
        let (line, after) = cut(text, b'\n');
        if entry.0 == worker {
            let Some((answer, more)) = left.split_first() else {
                return Ok(());
            };
            put_line(out, line, *answer)?;
            left = more;
        }
        rest = after;
    }
    Ok(())
}

/// Returns the answers to the lines of a worker; none if it has not played all of them.
fn answers_of(part: &Played) -> &[Answer]
    ensures { result.now ≡ spec.answers_of part.now.answers }
{
    match &part.answers {
        Ok(answers) => answers.as_slice(),
        Err(_) => &[],
    }
}

/// Appends the lines of all workers, worker by worker.
fn put_all_lines(
    out: &mut Vec<u8>,
    body: &[u8],
    calls: &[(u32, ScriptCall)],
    played: &[Played],
) -> Result<(), AllocError>
    ensures { OnOk result (out.new.items
        ≡ out.old.items ++ all_rows (parts body.now) calls.now played.now) }
{
    for part in played {
        put_own_lines(out, body, calls, part.worker.number(), answers_of(part))?;
    }
    Ok(())
}

/// Returns the workers after their lines.
fn workers_of(alloc: Global, played: Vec<Played>) -> Result<Vec<Worker>, AllocError>
    ensures { IfOk result (λ ws. ws.items ≡ map (λ p. p.worker) played.items) }
{
    let mut workers = Vec::new(alloc);
    for part in played {
        let Played { worker, answers: _ } = part;
        workers.push(worker)?;
    }
    Ok(workers)
}

/// Returns the output for a script in which each line involves only its worker.
fn text_of<R: Threads + Wait + Sync, G: Gate>(
    rt: &R,
    alloc: Global,
    script: &Script<'_>,
    gate: &G,
) -> Result<Vec<u8>, RunFault>
    requires plain { All (λ e. IsOwnCall e.1) script.now.entries.items }
    requires few { length script.now.entries.items ≤ 100000 }
    ensures text { IfOk result
        (λ v. IsStressText (G.lets gate.now) (G.stops gate.now)
        (record { header = script.now.header; entries = script.now.entries.items })
        (parts script.now.body.now) v.items) }
    ensures gate { IfErr result
        (IfStopped (IsGateStop (G.lets gate.now) (G.stops gate.now)
        (record { header = script.now.header; entries = script.now.entries.items }))) }
    ensures stop { IfErr result IsStop }
{
    let (tree, workers) = open(alloc, &script.header)?;
    let calls = script.entries.as_slice();
    let lines = Lines {
        gate,
        tree: &tree,
        tries: script.header.tries,
        calls,
    };
    let played = play_apart(rt, alloc, &lines, workers)?;
    if let Some(fault) = fault_of(played.as_slice()) {
        return Err(fault);
    }
    let mut out = Vec::new(alloc);
    let Ok(()) = put_all_lines(&mut out, script.body, calls, played.as_slice()) else {
        return Err(RunFault::NoMemory);
    };
    let Ok(workers) = workers_of(alloc, played) else {
        return Err(RunFault::NoMemory);
    };
    put_end(&mut out, tree, workers)?;
    Ok(out)
}

/// Returns the output for the bytes of a file.
fn output<R: Threads + Wait + Sync, G: Gate>(
    rt: &R,
    alloc: Global,
    bytes: &[u8],
    gate: &G,
) -> Result<Vec<u8>, RunFault>
    ensures ends { EndsSo Stress bytes.now result }
    ensures text { IfOk result
        (λ v. IsWritten (IsStressText (G.lets gate.now) (G.stops gate.now)) Stress bytes.now
        v.items) }
    ensures gate { IfErr result
        (IfGate (IsGateStop (G.lets gate.now) (G.stops gate.now)) Stress bytes.now) }
{
    let script = script_of(alloc, Command::Stress, bytes)?;
    text_of(rt, alloc, &script, gate)
}

/// Plays the script that it reads on a tree: the lines of each worker in their order, in a thread
/// of its own. It writes the lines of each worker with their answers, and then the last lines,
/// which are about the closed tree.
///
/// It reads everything before it checks a line, and writes nothing before all threads have ended
/// and the tree is closed. Each worker asks the gate before each line. The threads start together,
/// after the last of them is made.
///
/// Errors: `Thread` comes before `NoMemory` of a call, and that before `Gate`, which names the
/// worker with the least number that was stopped.
pub fn stress<R: Threads + Wait + Sync, I: Read, W: Write, G: Gate>(
    rt: &R,
    alloc: Global,
    reader: &mut I,
    writer: &mut W,
    gate: &G,
) -> Result<(), RunFault>
    // The output is the lines of each worker with their answers, and then the last lines, and
    // nothing else. The lines were played one after the other on a new tree that all workers share.
    ensures ok { OnOk result (IfSome (I.remaining reader.old)
        (λ input. WritesText (IsStressText (G.lets gate.now) (G.stops gate.now)) Stress input
        (W.contents writer.old) (W.contents writer.new))) }
    // `Gate`: the gate has stopped workers, and no worker was refused memory. It names the stopped
    // worker with the least number, and the line before which it was stopped.
    ensures gate { IfErr result
        (λ e. IfSome (I.remaining reader.old)
        (λ input. IfGate (IsGateStop (G.lets gate.now) (G.stops gate.now)) Stress input e)) }
    // A run succeeds only if no line is faulty.
    ensures right { OnOk result
        (IfSome (I.remaining reader.old) (λ input. IsOk (script_of Stress input))) }
    // `Line`: it is the first faulty line, with the least reason.
    ensures line { IfErr result
        (λ e. IfSome (I.remaining reader.old)
        (λ input. IfLine e (λ line reason. script_of Stress input
        ≡ Err (record { line = line; reason = reason })))) }
    // The run uses the writer only if no line is faulty.
    ensures write { IfErr result
        (λ e. e ≡ RunFault.Write
        → IfSome (I.remaining reader.old) (λ input. IsOk (script_of Stress input))) }
    // After any end but `NoMemory` and `Read`, the input was read to its end, or to the limit.
    ensures read { HasJudged result
        → IfSome (I.remaining reader.old)
        (λ input. I.remaining reader.new ≡ Some (drop LIMIT input)) }
    // The run writes nothing if it returns an error other than `Write`.
    ensures unwritten { IfErr result (λ e. e ≢ RunFault.Write → writer.new ≡ writer.old) }
{
    let bytes = input_of(alloc, reader)?;
    let text = output(rt, alloc, bytes.as_slice(), gate)?;
    write_text(writer, text.as_slice())
}
