//! The program: it reads a command word and standard input, and writes standard output.
#![tactic(auto)]

ghost use Rattle.std.specs.Prelude.{◌≡◌, length, OnOk};
ghost use Rattle.nm_files.specs.Files.{exit_status};

use clap::error::ErrorKind;
use clap::{Arg, ArgAction, Command};
use nm_files::read::fault::RunFault;
use nm_replay::replay;
use nm_serial::{Gate, serial, stress};
use std::alloc::Global;
use std::env::Env;
use std::process::ExitCode;
use std::{env, io};
use thiserror::Error;

/// The command that the command line names.
#[derive(Clone, Copy, Debug, PartialEq, Eq)]
enum Request {
    Replay,
    Serial,
    Stress,
}

/// The gate of the program: it lets each worker play each line.
#[derive(Clone, Copy, Debug)]
struct OpenGate;

impl Gate for OpenGate {
    ghost use Rattle.std.specs.Prelude.{⊤};

    ghost lets = { λ gate worker line. ⊤ };

    ghost stops = { λ gate worker line. ⊥ };

    fn turn(&self, _worker: u32, _line: u32) -> bool {
        true
    }
}

/// Why the command line names no command.
#[derive(Clone, Copy, Debug, PartialEq, Eq, Error)]
enum UsageError {
    #[error("usage: nm_stress COMMAND")]
    Usage,
    #[error("no memory")]
    NoMemory,
}

impl UsageError {
    /// Returns the exit status after this error.
    fn status(self) -> u8 {
        match self {
            UsageError::Usage => 2,
            UsageError::NoMemory => 3,
        }
    }
}

/// Converts an error of clap.
fn refusal_of(error: &clap::Error) -> UsageError {
    if error.kind() == ErrorKind::OutOfMemory {
        UsageError::NoMemory
    } else {
        UsageError::Usage
    }
}

/// Reads the words of the command line: the program's name and one command.
fn request_of(alloc: Global, words: &[String]) -> Result<Request, UsageError>
    ensures { OnOk result (length words.now ≡ 2) }
{
    if words.len() != 2 {
        return Err(UsageError::Usage);
    }
    let name = Arg::new(alloc, "command")
        .required(true)
        .action(ArgAction::Set);
    let command = match Command::new(alloc, "nm_stress").arg(name) {
        Ok(command) => command,
        Err(_) => return Err(UsageError::NoMemory),
    };
    let matches = match command.try_get_matches_from(words) {
        Ok(matches) => matches,
        Err(error) => return Err(refusal_of(&error)),
    };
    match matches.get_str("command") {
        Some("replay") => Ok(Request::Replay),
        Some("serial") => Ok(Request::Serial),
        Some("stress") => Ok(Request::Stress),
        _ => Err(UsageError::Usage),
    }
}

/// Reads the command line. A word that is not valid text is an error, like a wrong word.
fn asked(rt: &(impl Env + AllocGlobal)) -> Result<Request, UsageError> {
    let words = match env::args(rt) {
        Ok(words) => words,
        Err(error) if error.kind() == io::ErrorKind::OutOfMemory => {
            return Err(UsageError::NoMemory);
        }
        Err(_) => return Err(UsageError::Usage),
    };
    let words: Vec<String> = match words.collect(rt.alloc()) {
        Ok(words) => words,
        Err(_) => return Err(UsageError::NoMemory),
    };
    request_of(rt.alloc(), words.as_slice())
}

/// Returns the exit status after a run with this fault.
fn status_of(fault: &RunFault) -> u8
    ensures { result ≡ exit_status fault.now }
{
    match fault {
        RunFault::Line { .. } => 1,
        RunFault::NoMemory | RunFault::Gate { .. } | RunFault::Thread => 3,
        RunFault::Read | RunFault::Write => 4,
    }
}

fn main(rt: HostRuntime) -> ExitCode {
    let request = match asked(&rt) {
        Ok(request) => request,
        Err(refusal) => {
            let _ = eprintln!(rt; "{refusal}");
            return ExitCode::from(refusal.status());
        }
    };
    let result = match request {
        Request::Replay => replay(rt.alloc(), &mut rt.reader(), &mut io::writer(&rt)),
        Request::Serial => serial(rt.alloc(), &mut rt.reader(), &mut io::writer(&rt)),
        Request::Stress => stress(
            &rt,
            rt.alloc(),
            &mut rt.reader(),
            &mut io::writer(&rt),
            &OpenGate,
        ),
    };
    match result {
        Ok(()) => ExitCode::SUCCESS,
        Err(fault) => {
            let _ = eprintln!(rt; "{fault}");
            ExitCode::from(status_of(&fault))
        }
    }
}
