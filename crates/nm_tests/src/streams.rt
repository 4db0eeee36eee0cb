//! `replay`, `serial` and `stress` with readers and writers that fail at each call in turn, or give
//! and take few bytes at a time.
use super::gates::Open;
use nm_files::read::fault::{Reason, RunFault};
use nm_replay::replay;
use nm_serial::{serial, stress};
use std::alloc::Global;
use std::io;
use std::io::{Error, ErrorKind, Read, Write};
use std::sync::Wait;
use std::thread::Threads;

/// A command of the program.
#[derive(Clone, Copy)]
enum Command {
    Replay,
    Serial,
    Stress,
}

const SCHEDULE: &str = "\
schedule 1 7 2
1 sight
1 announce
1 sight
0 sight
0 scan 1
0 advance
0 scan 1
0 advance
";

const SCHEDULE_OUTPUT: &str = "\
1 sight = saw 0
1 announce = announced 0
1 sight = pinned 0
0 sight = saw 0
0 scan 1 = in 0
0 advance = moved 1
0 scan 1 = in 0
0 advance = refused 6
worker 0 retired -
worker 0 freed -
worker 0 queue -
worker 1 retired -
worker 1 freed -
worker 1 queue -
epoch 1
places pool 2 private 0 reached 0 queued 0
";

const SCRIPT_OUTPUT: &str = "\
0 has 1 = false
1 pin = pinned 0
worker 0 retired 0 freed 0 queue -
worker 1 retired 0 freed 0 queue -
keys -
places pool 4 reached 0 queued 0
";

/// The commands, each with its input and its output.
const RUNS: [(Command, &str, &str); 3] = [
    (Command::Replay, SCHEDULE, SCHEDULE_OUTPUT),
    (
        Command::Serial,
        "serial 1 9 2 4\n0 has 1\n1 pin\n",
        SCRIPT_OUTPUT,
    ),
    (
        Command::Stress,
        "stress 1 9 2 4\n0 has 1\n1 pin\n",
        SCRIPT_OUTPUT,
    ),
];

/// The number of bytes that a sink keeps of what it took.
const ROOM: usize = 512;

/// Gives some bytes, at most a fixed number in each call, and fails at one call.
#[derive(Clone, Copy, Drop)]
struct Source<'a> {
    rest: &'a [u8],
    most: usize,
    calls: u32,
    fails_at: u32,
    error: ErrorKind,
}

impl<'a> Source<'a> {
    fn new(bytes: &'a [u8], most: usize) -> Source<'a> {
        Source {
            rest: bytes,
            most,
            calls: 0,
            fails_at: 0,
            error: ErrorKind::Other,
        }
    }
}

impl Read for Source<'_> {
    fn read(&mut self, buf: &mut [u8]) -> io::Result<usize> {
        self.calls = self.calls.saturating_add(1);
        if self.calls == self.fails_at {
            return Err(Error::from(self.error));
        }
        let n = self.most.min(buf.len()).min(self.rest.len());
        let (front, rest) = self.rest.split_at(n);
        buf[..n].copy_from_slice(front);
        self.rest = rest;
        Ok(n)
    }
}

/// Takes at most a fixed number of bytes in each call, keeps the first of them, and fails at one
/// call, which may be a flush.
#[derive(Clone, Copy, Drop)]
struct Sink {
    held: [u8; ROOM],
    taken: usize,
    most: usize,
    calls: u32,
    fails_at: u32,
}

impl Sink {
    fn new(most: usize, fails_at: u32) -> Sink {
        Sink {
            held: [0; ROOM],
            taken: 0,
            most,
            calls: 0,
            fails_at,
        }
    }

    fn text(&self) -> &[u8] {
        &self.held[..self.taken.min(ROOM)]
    }

    fn call(&mut self) -> io::Result<()> {
        self.calls = self.calls.saturating_add(1);
        if self.calls == self.fails_at {
            return Err(Error::from(ErrorKind::BrokenPipe));
        }
        Ok(())
    }
}

impl Write for Sink {
    fn write(&mut self, buf: &[u8]) -> io::Result<usize> {
        self.call()?;
        let n = self.most.min(buf.len());
        for byte in &buf[..n] {
            if let Some(place) = self.held.get_mut(self.taken) {
                *place = *byte;
            }
            self.taken = self.taken.saturating_add(1);
        }
        Ok(n)
    }

    fn flush(&mut self) -> io::Result<()> {
        self.call()
    }
}

/// Runs a command between a reader and a writer.
fn run<R: Threads + Wait + Sync, I: Read, W: Write>(
    rt: &R,
    alloc: Global,
    command: Command,
    reader: &mut I,
    writer: &mut W,
) -> Result<(), RunFault> {
    match command {
        Command::Replay => replay(alloc, reader, writer),
        Command::Serial => serial(alloc, reader, writer),
        Command::Stress => stress(rt, alloc, reader, writer, &Open),
    }
}

#[test]
fn small_pieces(rt: HostRuntime) {
    for (command, input, output) in RUNS {
        for (given, taken) in [(1, 1), (2, 3), (7, 1000)] {
            let mut source = Source::new(input.as_bytes(), given);
            let mut sink = Sink::new(taken, 0);
            let result = run(&rt, rt.alloc(), command, &mut source, &mut sink);
            assert!(&rt; result.is_ok(), "at {input:?}");
            assert_eq!(&rt; sink.text(), output.as_bytes());
        }
    }
}

/// A reader fails at each of its calls in turn, including the one that finds the end.
#[test]
fn failing_readers(rt: HostRuntime) {
    for (command, input, _) in RUNS {
        for at in 1..=input.len() as u32 + 1 {
            for error in [ErrorKind::Other, ErrorKind::Interrupted] {
                let mut source = Source {
                    fails_at: at,
                    error,
                    ..Source::new(input.as_bytes(), 1)
                };
                let mut sink = Sink::new(1, 0);
                let result = run(&rt, rt.alloc(), command, &mut source, &mut sink);
                assert!(&rt; matches!(&result, Err(RunFault::Read)), "at {at}");
                assert_eq!(&rt; sink.calls, 0);
            }
        }
    }
}

/// A writer fails at each of its calls in turn, including the flush at the end. A writer that takes
/// nothing has failed.
#[test]
fn failing_writers(rt: HostRuntime) {
    for (command, input, output) in RUNS {
        for front in 0..=output.len() {
            let mut source = Source::new(input.as_bytes(), 1000);
            let mut sink = Sink::new(1, front as u32 + 1);
            let result = run(&rt, rt.alloc(), command, &mut source, &mut sink);
            assert!(&rt; matches!(&result, Err(RunFault::Write)), "at {front}");
            assert_eq!(&rt; sink.text(), &output.as_bytes()[..front]);
        }
        let mut source = Source::new(input.as_bytes(), 1000);
        let mut sink = Sink::new(0, 0);
        let result = run(&rt, rt.alloc(), command, &mut source, &mut sink);
        assert!(&rt; matches!(&result, Err(RunFault::Write)));
        assert_eq!(&rt; sink.calls, 1);
    }
}

/// Fills each buffer, without end, and counts what it gave.
#[derive(Drop)]
struct Endless {
    given: usize,
}

impl Read for Endless {
    fn read(&mut self, buf: &mut [u8]) -> io::Result<usize> {
        buf.fill(b'0');
        self.given = self.given.saturating_add(buf.len());
        Ok(buf.len())
    }
}

/// From a reader that never ends, the commands read no more than they need to decide.
#[test]
fn endless_readers(rt: HostRuntime) {
    for (command, _, _) in RUNS {
        let mut reader = Endless { given: 0 };
        let mut sink = Sink::new(1, 0);
        let result = run(&rt, rt.alloc(), command, &mut reader, &mut sink);
        assert!(&rt;
            matches!(
                &result,
                Err(RunFault::Line {
                    line: 1,
                    reason: Reason::Long
                })
            )
        );
        assert_eq!(&rt; reader.given, 12_100_122);
        assert_eq!(&rt; sink.calls, 0);
    }
}
