//! The lines of a file.
ghost use Rattle.std.specs.Prelude.{◌≡◌, ◌<◌, ℕ, List, map, take, IfOk};
ghost use Rattle.std.specs.List.{find, list_all};
ghost use Rattle.nm_files.specs.Lines.{fields};
ghost use Rattle.nm_files.specs.Lines as lines;
ghost use Rattle.nm_files.specs.Files.{checked};
ghost use Rattle.nm_files.specs.declared.read.header.Command.{Command as CommandOf};
ghost use Rattle.nm_files.specs.declared.read.header.Header.{Header as HeaderOf};
ghost use Rattle.nm_files.specs.Kinds.{events, calls};
ghost use Rattle.nm_files.specs.Reasons.{reason_of, holds, line_reasons, header_holds, header_reasons};
ghost use Rattle.nm_files.specs.Entries as spec;

use crate::read::entry::FileEntry;
use crate::read::fault::Reason;
use crate::read::field::is_field;
use crate::read::header::{Command, Header, header_of};
use crate::read::pieces::cut;
use crate::read::value::{both, worker_of};
use arrayvec::ArrayVec;

/// Returns whether a line consists of fields with single spaces between them.
fn is_formed(line: &[u8]) -> bool
    ensures { result ≡ list_all lines.is_field (fields line.now) }
{
    let mut rest = Some(line);
    while let Some(text) = rest {
        let (field, after) = cut(text, b' ');
        if !is_field(field) {
            return false;
        }
        rest = after;
    }
    true
}

/// Returns the first eight fields of a line: no correct line has more.
fn fields_of(line: &[u8]) -> ArrayVec<&[u8], 8>
    ensures { map (λ f. f.now) result.items ≡ take 8 (fields line.now) }
{
    let mut fields = ArrayVec::new();
    let mut rest = Some(line);
    for _ in 0..8usize {
        let Some(text) = rest else {
            break;
        };
        let (field, after) = cut(text, b' ');
        fields.push(field);
        rest = after;
    }
    fields
}

/// Parses the fields of a line into a worker and an entry.
#[tactic(auto, unfolding(crate::specs::Entries::entry_of))]
fn entry_of<T: FileEntry>(header: &Header, fields: &[&[u8]]) -> Result<(u32, T), Reason>
    ensures { result ≡ spec.entry_of T.kinds header.now (map (λ f. f.now) fields.now) }
{
    let [worker, word, arguments @ ..] = fields else {
        return Err(Reason::Form);
    };
    let workers = header.layout.workers();
    both(
        worker_of(workers, worker),
        T::made(workers, header.forms, word, arguments),
    )
}

/// Parses a line into a worker and an entry, in a file with that header.
pub(crate) fn line_of<T: FileEntry>(header: &Header, line: &[u8]) -> Result<(u32, T), Reason>
    ensures { result ≡ spec.line_of T.kinds header.now line.now }
{
    if !is_formed(line) {
        return Err(Reason::Form);
    }
    entry_of(header, fields_of(line).as_slice())
}

/// Parses the first line, in a file for that command.
pub(crate) fn first_line_of(command: Command, line: &[u8]) -> Result<Header, Reason>
    ensures says { result ≡ spec.first_line_of command line.now }
    ensures stress { IfOk result (spec.ResignsInSerial command) }
{
    header_of(command, fields_of(line).as_slice())
}

/// Law: for every line that ends with a newline, the reason that is returned is the first that
/// holds of it, in the order of their numbers, so the least. A line is correct exactly if no reason
/// holds of it.
pub fn least_reason()
    ensures first_line { (command : CommandOf) (line : List ℕ)
        → reason_of (checked 1 line (spec.first_line_of command line))
        ≡ find (header_holds command line) header_reasons }
    ensures event { (header : HeaderOf) (number : ℕ) (line : List ℕ)
        → reason_of (checked number line (spec.line_of events header line))
        ≡ find (holds events header number line) line_reasons }
    ensures call { (header : HeaderOf) (number : ℕ) (line : List ℕ)
        → reason_of (checked number line (spec.line_of calls header line))
        ≡ find (holds calls header number line) line_reasons }
{}
