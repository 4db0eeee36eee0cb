//! `serial`: all lines of a script in one thread, in their order.
ghost use Rattle.std.specs.Prelude.{◌≡◌, ◌≢◌, ◌<◌, ◌⊎◌, ◌∷◌, [], ◌++◌, All, drop, length, map, sum_by, Some, IfOk, OnOk, IfErr, IfSome, IsOk};
ghost use Rattle.nm_files.specs.Files.{IfLine, HasJudged};
ghost use Rattle.nm_files.specs.Lines.{parts};
ghost use Rattle.nm_files.specs.Entries.{IsEntryOf};
ghost use Rattle.nm_files.specs.Entries as scripts;
ghost use Rattle.nm_steps.specs.Steps.{IsOf};
ghost use Rattle.nm_serial.specs.Crews.{AreCrewOf, HasAsked, IsGone, PlaysAll, PlaysLine, present, stands_for};
ghost use Rattle.nm_serial.specs.Playing.{EndsSo, IsOfOneThread};
ghost use Rattle.nm_serial.specs.Texts.{IsSerialText, IsWritten, WritesText};

use crate::answer::{Answer, Refusal};
use crate::answer_lines::put_lines;
use crate::crew::{leave, make_at};
use crate::outcome::{open, put_end};
use nm_files::read::entry::ScriptCall;
use nm_files::read::fault::RunFault;
use nm_files::read::file::{Script, script_of};
use nm_files::read::header::{Command, Header};
use nm_files::stream::{LIMIT, input_of, write_text};
use nm_tree::{Tree, Worker};
use std::alloc::{AllocError, Global};
use std::io::{Read, Write};

/// Puts the workers at their places.
fn crew_of(
    alloc: Global,
    tree: &Tree,
    workers: Vec<Worker>,
) -> Result<Vec<Option<Worker>>, AllocError>
    requires own { All (λ w. IsOf tree.now w.pass) workers.items }
    ensures own { IfOk result (λ crew. AreCrewOf tree.now crew.items) }
    ensures places { IfOk result (λ crew. crew.items ≡ map Some workers.items) }
{
    let mut crew = Vec::new(alloc);
    for worker in workers {
        crew.push(Some(worker))?;
    }
    Ok(crew)
}

/// Appends the worker of a place to the others, if it has not resigned.
fn put_left(workers: &mut Vec<Worker>, place: Option<Worker>) -> Result<(), AllocError>
    ensures { OnOk result (workers.new.items ≡ workers.old.items ++ present (place ∷ [])) }
{
    let Some(worker) = place else {
        return Ok(());
    };
    workers.push(worker)?;
    Ok(())
}

/// Returns the workers that have not resigned.
fn left_of(alloc: Global, crew: Vec<Option<Worker>>) -> Result<Vec<Worker>, AllocError>
    ensures { IfOk result (λ workers. workers.items ≡ present crew.items) }
{
    let mut workers = Vec::new(alloc);
    for place in crew {
        put_left(&mut workers, place)?;
    }
    Ok(workers)
}

/// Lets the worker at a place resign to the one at another place. It does nothing if either has
/// resigned, or if they are the same. Returns `None` if memory was refused.
fn resign(tree: &Tree, crew: &mut Vec<Option<Worker>>, leaver: usize, heir: usize) -> Option<Answer>
    requires own { AreCrewOf tree.now crew.old.items }
    requires leaver { leaver < length crew.old.items }
    requires heir { heir < length crew.old.items }
    ensures own { AreCrewOf tree.now crew.new.items }
    ensures count { length crew.new.items ≡ length crew.old.items }
    ensures whole { sum_by stands_for crew.new.items ≡ sum_by stands_for crew.old.items }
    ensures did { IfSome result (λ a. IsGone leaver heir crew.old.items a crew.new.items
        ⊎ HasAsked leaver heir crew.old.items a crew.new.items) }
{
    if leaver == heir || crew[leaver].is_none() || crew[heir].is_none() {
        return Some(Answer::Refused(Refusal::Gone));
    }
    let Some(taking) = crew[heir].take() else {
        unreachable!()
    };
    let Some(leaving) = crew[leaver].take() else {
        unreachable!()
    };
    let (taken, still, answer) = leave(tree, taking, leaving);
    crew[heir] = Some(taken);
    crew[leaver] = still;
    answer
}

/// Plays one line of a script.
fn play_line(
    tree: &Tree,
    crew: &mut Vec<Option<Worker>>,
    header: &Header,
    worker: u32,
    call: &ScriptCall,
) -> Option<Answer>
    requires own { AreCrewOf tree.now crew.old.items }
    requires count { length crew.old.items ≡ header.now.layout.workers }
    requires allowed { IsEntryOf header.now (worker, call.now) }
    ensures own { AreCrewOf tree.now crew.new.items }
    ensures count { length crew.new.items ≡ length crew.old.items }
    ensures whole { sum_by stands_for crew.new.items ≡ sum_by stands_for crew.old.items }
    ensures did { IfSome result
        (λ a. PlaysLine tree.now header.now.tries worker call.now crew.old.items a crew.new.items) }
{
    match call {
        ScriptCall::Resign(heir) => resign(tree, crew, worker as usize, *heir as usize),
        _ => make_at(tree, &mut crew[worker as usize], *call, header.tries),
    }
}

/// Plays all lines of a script, in their order.
fn play(
    alloc: Global,
    tree: &Tree,
    crew: &mut Vec<Option<Worker>>,
    header: &Header,
    calls: &[(u32, ScriptCall)],
) -> Result<Vec<Answer>, RunFault>
    requires own { AreCrewOf tree.now crew.old.items }
    requires count { length crew.old.items ≡ header.now.layout.workers }
    requires allowed { All (IsEntryOf header.now) calls.now }
    ensures own { AreCrewOf tree.now crew.new.items }
    ensures whole { sum_by stands_for crew.new.items ≡ sum_by stands_for crew.old.items }
    ensures did { IfOk result (λ v. PlaysAll tree.now header.now.tries calls.now v.items
        crew.old.items crew.new.items) }
    ensures err { IfErr result (λ e. e ≡ RunFault.NoMemory) }
{
    let mut answers = Vec::new(alloc);
    for entry in calls {
        let Some(answer) = play_line(tree, crew, header, entry.0, &entry.1) else {
            return Err(RunFault::NoMemory);
        };
        answers.push(answer).map_err(|_| RunFault::NoMemory)?;
    }
    Ok(answers)
}

/// Returns the output for a script.
fn text_of(alloc: Global, script: &Script<'_>) -> Result<Vec<u8>, RunFault>
    requires { All (IsEntryOf script.now.header) script.now.entries.items }
    ensures text { IfOk result
        (λ v. IsSerialText (record { header = script.now.header; entries = script.now.entries.items })
        (parts script.now.body.now) v.items) }
    ensures err { IfErr result (λ e. e ≡ RunFault.NoMemory) }
{
    let (tree, workers) = open(alloc, &script.header)?;
    let Ok(mut crew) = crew_of(alloc, &tree, workers) else {
        return Err(RunFault::NoMemory);
    };
    let answers = play(
        alloc,
        &tree,
        &mut crew,
        &script.header,
        script.entries.as_slice(),
    )?;
    let Ok(workers) = left_of(alloc, crew) else {
        return Err(RunFault::NoMemory);
    };
    let mut out = Vec::new(alloc);
    let Ok(()) = put_lines(&mut out, script.body, answers.as_slice()) else {
        return Err(RunFault::NoMemory);
    };
    put_end(&mut out, tree, workers)?;
    Ok(out)
}

/// Returns the output for the bytes of a file.
fn output(alloc: Global, bytes: &[u8]) -> Result<Vec<u8>, RunFault>
    ensures ends { EndsSo Command.Serial bytes.now result }
    ensures text { IfOk result (λ v. IsWritten IsSerialText Command.Serial bytes.now v.items) }
    ensures alone { IfErr result IsOfOneThread }
{
    let script = script_of(alloc, Command::Serial, bytes)?;
    text_of(alloc, &script)
}

/// Plays the script that it reads on a tree, in one thread, line by line. It writes each line with
/// its answer, and then the last lines, which are about the closed tree.
///
/// It reads everything before it checks a line, and writes nothing before all calls are made and
/// the tree is closed.
pub fn serial<R: Read, W: Write>(
    alloc: Global,
    reader: &mut R,
    writer: &mut W,
) -> Result<(), RunFault>
    // The output is the script's lines with their answers, and then the last lines, and nothing
    // else. The lines were played one after the other on a new tree.
    ensures ok { OnOk result (IfSome (R.remaining reader.old)
        (λ input. WritesText IsSerialText Command.Serial input (W.contents writer.old)
        (W.contents writer.new))) }
    // A run succeeds only if the script is right.
    ensures right { OnOk result
        (IfSome (R.remaining reader.old) (λ input. IsOk (scripts.script_of Command.Serial input))) }
    // `Line`: it is the first faulty line, with the least reason.
    ensures line { IfErr result
        (λ e. IfSome (R.remaining reader.old)
        (λ input. IfLine e (λ line reason. scripts.script_of Command.Serial input
        ≡ Err (record { line = line; reason = reason })))) }
    // The run uses the writer only if no line is faulty.
    ensures write { IfErr result
        (λ e. e ≡ RunFault.Write
        → IfSome (R.remaining reader.old)
        (λ input. IsOk (scripts.script_of Command.Serial input))) }
    // After any end but `NoMemory` and `Read`, the input was read to its end, or to the limit.
    ensures read { HasJudged result
        → IfSome (R.remaining reader.old)
        (λ input. R.remaining reader.new ≡ Some (drop LIMIT input)) }
    // Neither a gate nor a thread ends the run.
    ensures alone { IfErr result IsOfOneThread }
    // The run writes nothing if it returns an error other than `Write`.
    ensures unwritten { IfErr result (λ e. e ≢ RunFault.Write → writer.new ≡ writer.old) }
{
    let bytes = input_of(alloc, reader)?;
    let text = output(alloc, bytes.as_slice())?;
    write_text(writer, text.as_slice())
}
