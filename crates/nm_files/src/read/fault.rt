//! The faults of a file and of a run.
ghost use Rattle.std.specs.Prelude.{◌≡◌};

use thiserror::Error;

/// What is wrong with a line of a file.
#[derive(Clone, Copy, Debug, PartialEq, Eq)]
pub enum Reason {
    /// More than 120 bytes before the newline, or a line numbered above 100,001.
    Long,
    /// No newline at its end. An empty file is a first line of no bytes.
    Cut,
    /// The first line isn't the header of this command, with numbers in their one spelling.
    Header,
    /// The header's nodes are fewer than 7, or more than its version allows.
    Nodes,
    /// The header has no worker, or more workers than its version allows.
    Workers,
    /// The header's tries are not 1 to 1,000,000.
    Tries,
    /// The line is not formed of fields with single spaces between them, or has fewer than two
    /// fields.
    Form,
    /// The second field is not a kind of event or of call.
    Kind,
    /// The number of arguments is not that of the kind, or a word is not one of the fields, sides,
    /// operations or answers that is required.
    Fields,
    /// A number is not in its one spelling, or above its range.
    Number,
    /// The line's worker, or the heir that it names, is not one of the header's.
    Worker,
    /// The key of an operation is above those of the set.
    Key,
}

impl Reason {
    ghost use Rattle.nm_files.specs.Files.{least, reason_number};

    /// Returns the number by which a faulty line is reported. If a line has several faults, the one
    /// with the least number is returned.
    pub fn number(self) -> u8
        ensures { result ≡ reason_number self }
    {
        match self {
            Reason::Long => 1,
            Reason::Cut => 2,
            Reason::Header => 3,
            Reason::Nodes => 4,
            Reason::Workers => 5,
            Reason::Tries => 6,
            Reason::Form => 7,
            Reason::Kind => 8,
            Reason::Fields => 9,
            Reason::Number => 10,
            Reason::Worker => 11,
            Reason::Key => 12,
        }
    }

    /// Returns the lesser of two reasons by their numbers.
    pub(crate) fn least(self, other: Reason) -> Reason
        ensures { result ≡ least self other }
    {
        if self.number() <= other.number() {
            self
        } else {
            other
        }
    }
}

/// Why a run ended early.
#[derive(Debug, Drop, Error)]
pub enum RunFault {
    /// The first faulty line of the file, numbered from 1, and its least reason. Nothing was
    /// written.
    #[error("line {line}: reason {}", .reason.number())]
    Line { line: u32, reason: Reason },
    /// Memory was refused. Nothing was written.
    #[error("no memory")]
    NoMemory,
    /// The reader failed. Nothing was written.
    #[error("read failed")]
    Read,
    /// The writer failed. An unknown part of the text was written.
    #[error("write failed")]
    Write,
    /// The gate stopped a worker before a line, numbered in the file from 1. If there are several
    /// such workers, it is the least. Nothing was written.
    #[error("worker {worker} was stopped at line {line}")]
    Gate { worker: u32, line: u32 },
    /// No thread could be started. Those that had started have ended. Nothing was written.
    #[error("no thread")]
    Thread,
}
