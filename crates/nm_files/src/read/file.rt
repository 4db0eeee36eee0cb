//! A file: its header, and the entries of its lines in their order.
ghost use Rattle.std.specs.Prelude.{◌≡◌, ◌≤◌, drop, length, All, Ok, IfOk, OnOk};
ghost use Rattle.nm_files.specs.Lines.{parts};
ghost use Rattle.nm_files.specs.Files.{GivesWhatIsSaid, entries_from};
ghost use Rattle.nm_files.specs.Files as files;
ghost use Rattle.nm_files.specs.Entries.{IsEntryOf, ResignsInSerial};
ghost use Rattle.nm_files.specs.Entries as spec;

use crate::read::entry::{FileEntry, ScriptCall};
use crate::read::fault::{Reason, RunFault};
use crate::read::header::{Command, Header};
use crate::read::line::{first_line_of, line_of};
use crate::read::pieces::cut;
use nm_model::Event;
use std::alloc::Global;

/// The contents of a file, and the bytes after its first line.
#[derive(Drop)]
pub struct File<'a, T> {
    pub header: Header,
    pub entries: Vec<(u32, T)>,
    pub body: &'a [u8],
}

/// A file of events, for `replay`.
pub type Schedule<'a> = File<'a, Event>;

/// A file of calls, for `serial` or `stress`.
pub type Script<'a> = File<'a, ScriptCall>;

const MOST_LINES: u32 = 100_001;

const MOST_BYTES: usize = 120;

/// Returns the fault of a line, numbered from 1.
fn fault(line: u32, reason: Reason) -> RunFault
    ensures { result ≡ RunFault.Line line reason }
{
    RunFault::Line { line, reason }
}

/// Returns whether a line is too long, or its number is too great for a file.
fn is_long(number: u32, line: &[u8]) -> bool
    ensures { result ≡ files.is_long number line.now }
{
    number > MOST_LINES || line.len() > MOST_BYTES
}

/// Returns the fault of a line that does not end with a newline.
fn cut_off(number: u32, line: &[u8]) -> RunFault
    ensures { let off = files.cut_off number line.now
        in result ≡ RunFault.Line off.line off.reason }
{
    if is_long(number, line) {
        fault(number, Reason::Long)
    } else {
        fault(number, Reason::Cut)
    }
}

/// Returns what the line of this number was parsed into, or the fault `Long` if it is too long.
fn checked<T: Drop>(number: u32, line: &[u8], said: Result<T, Reason>) -> Result<T, RunFault>
    ensures says { GivesWhatIsSaid (λ x. x) result (files.checked number line.now said) }
    ensures same { IfOk result (λ x. said ≡ Ok x) }
    ensures number { OnOk result (number ≤ 100001) }
{
    if is_long(number, line) {
        return Err(fault(number, Reason::Long));
    }
    said.map_err(|reason| fault(number, reason))
}

/// Parses the lines from the second on into entries.
fn entries_of<T: FileEntry>(
    alloc: Global,
    header: &Header,
    body: &[u8],
) -> Result<Vec<(u32, T)>, RunFault>
    ensures { GivesWhatIsSaid (λ v. v.items) result
        (entries_from (spec.line_of T.kinds header.now) 2 (parts body.now)) }
{
    let mut entries = Vec::new(alloc);
    let mut rest = body;
    let mut number = 2u32;
    loop {
        let (line, after) = cut(rest, b'\n');
        let Some(after) = after else {
            if line.is_empty() {
                return Ok(entries);
            }
            return Err(cut_off(number, line));
        };
        let entry = checked(number, line, line_of(header, line))?;
        entries.push(entry).map_err(|_| RunFault::NoMemory)?;
        rest = after;
        number += 1;
    }
}

/// Parses the bytes of a file for that command. Errors: `Line` with the first faulty line, numbered
/// from 1, and the least reason of that line; `NoMemory`.
fn file_of<T: FileEntry>(
    alloc: Global,
    command: Command,
    bytes: &[u8],
) -> Result<File<'_, T>, RunFault>
    ensures says { GivesWhatIsSaid (λ s. record { header = s.header; entries = s.entries.items })
        result (spec.file_of T.kinds command bytes.now) }
    ensures body { IfOk result (λ s. drop 1 (parts bytes.now) ≡ parts s.body.now) }
    ensures stress { IfOk result (λ s. ResignsInSerial command s.header) }
{
    let (line, body) = cut(bytes, b'\n');
    let Some(body) = body else {
        return Err(cut_off(1, line));
    };
    let header = checked(1, line, first_line_of(command, line))?;
    let entries = entries_of(alloc, &header, body)?;
    Ok(File {
        header,
        entries,
        body,
    })
}

/// Parses the bytes of a schedule.
pub fn schedule_of(alloc: Global, bytes: &[u8]) -> Result<Schedule<'_>, RunFault>
    ensures says { GivesWhatIsSaid (λ s. record { header = s.header; entries = s.entries.items })
        result (spec.schedule_of bytes.now) }
    ensures body { IfOk result (λ s. drop 1 (parts bytes.now) ≡ parts s.body.now) }
{
    file_of(alloc, Command::Replay, bytes)
}

/// Parses the bytes of a script for that command.
pub fn script_of(alloc: Global, command: Command, bytes: &[u8]) -> Result<Script<'_>, RunFault>
    ensures says { GivesWhatIsSaid (λ s. record { header = s.header; entries = s.entries.items })
        result (spec.script_of command bytes.now) }
    ensures body { IfOk result (λ s. drop 1 (parts bytes.now) ≡ parts s.body.now) }
    ensures allowed { IfOk result (λ s. All (IsEntryOf s.header) s.entries.items) }
    ensures stress { IfOk result (λ s. ResignsInSerial command s.header) }
    ensures few { IfOk result (λ s. length s.entries.items ≤ 100000) }
{
    file_of(alloc, command, bytes)
}
