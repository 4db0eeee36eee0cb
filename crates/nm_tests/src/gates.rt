//! Scripts whose workers play in threads of their own, as a gate lets them.
use nm_files::read::fault::RunFault;
use nm_serial::{Gate, stress};
use std::alloc::Global;
use std::sync::Wait;
use std::sync::atomic::{AtomicU64, Ordering};
use std::thread::Threads;

/// A gate that lets each worker play each line.
#[derive(Clone, Copy)]
pub(super) struct Open;

impl Gate for Open {
    ghost use Rattle.std.specs.Prelude.{⊤};

    ghost lets = { λ gate worker line. ⊤ };

    ghost stops = { λ gate worker line. ⊥ };

    fn turn(&self, _worker: u32, _line: u32) -> bool {
        true
    }
}

/// A gate that lets a worker play up to a line.
#[derive(Clone, Copy)]
struct UpTo {
    last: u32,
}

impl Gate for UpTo {
    ghost use Rattle.std.specs.Prelude.{◌<◌, ◌≤◌};

    ghost lets = { λ gate worker line. line ≤ gate.last };

    ghost stops = { λ gate worker line. gate.last < line };

    fn turn(&self, _worker: u32, line: u32) -> bool {
        line <= self.last
    }
}

/// The last line up to which two workers take turns.
const LAST_TURN: u32 = 13;

/// The line for which each of two workers has asked last; it has played its lines before that one.
#[derive(Drop)]
struct Turns {
    first: AtomicU64,
    second: AtomicU64,
}

impl Turns {
    /// Records the line for which a worker asks.
    fn mark(&self, worker: u32, line: u32) {
        if worker == 0 {
            self.first.store(u64::from(line), Ordering::SeqCst);
        } else {
            self.second.store(u64::from(line), Ordering::SeqCst);
        }
    }

    /// Returns the line for which the other worker has asked.
    fn other(&self, worker: u32) -> u64 {
        if worker == 0 {
            self.second.load(Ordering::SeqCst)
        } else {
            self.first.load(Ordering::SeqCst)
        }
    }
}

impl Gate for Turns {
    ghost use Rattle.std.specs.Prelude.{⊤};

    ghost lets = { λ gate worker line. ⊤ };

    ghost stops = { λ gate worker line. ⊤ };

    /// Waits until the other worker has asked for the line after this one, so that it has played
    /// the line before this one.
    fn turn(&self, worker: u32, line: u32) -> bool {
        self.mark(worker, line);
        if line == 2 || LAST_TURN < line {
            return true;
        }
        for _ in 0..u64::MAX {
            if u64::from(line) < self.other(worker) {
                return true;
            }
        }
        false
    }
}

const LOOKUPS: &str = "\
stress 1 16 2 4
0 has 1
1 has 1
0 has 2
1 has 2
";

const LOOKUPS_OUTPUT: &str = "\
0 has 1 = false
0 has 2 = false
1 has 1 = false
1 has 2 = false
worker 0 retired 0 freed 0 queue -
worker 1 retired 0 freed 0 queue -
keys -
places pool 11 reached 0 queued 0
";

/// Plays the look-ups with a gate that lets the workers play up to a line.
fn look_up<R: Threads + Wait + Sync>(
    rt: &R,
    alloc: Global,
    last: u32,
    writer: &mut Vec<u8>,
) -> Result<(), RunFault> {
    let mut reader = LOOKUPS.as_bytes();
    stress(rt, alloc, &mut reader, writer, &UpTo { last })
}

/// The output has the lines of each worker in their order. If the gate stops workers, the error
/// names the least of them and its line, and nothing is written.
#[test]
fn the_least_worker_that_its_gate_stops_is_told(rt: HostRuntime) {
    let mut writer = Vec::new(rt.alloc());
    let result = look_up(&rt, rt.alloc(), 5, &mut writer);
    assert!(&rt; result.is_ok());
    assert_eq!(&rt; writer.as_slice(), LOOKUPS_OUTPUT.as_bytes());
    let mut writer = Vec::new(rt.alloc());
    let result = look_up(&rt, rt.alloc(), 2, &mut writer);
    let Err(RunFault::Gate { worker, line }) = result else {
        panic!(&rt; "no worker was stopped")
    };
    assert_eq!(&rt; (worker, line), (0, 4));
    assert!(&rt; writer.is_empty());
}

/// Worker 1 stays pinned during a delete and two attempts to advance the epoch. The nodes that were
/// cut off are freed after it has unpinned.
const IN_TURNS: &str = "\
stress 2 16 2 4
0 insert 5
1 has 5
0 insert 6
1 pin
0 delete 5
1 has 6
0 advance
1 delete 6
0 advance
1 unpin
0 advance
1 delete 6
0 unpin
1 unpin
";

const IN_TURNS_OUTPUT: &str = "\
0 insert 5 = true
0 insert 6 = true
0 delete 5 = true
0 advance = moved 1
0 advance = held 1 0
0 advance = moved 2
0 unpin = refused idle
1 has 5 = true
1 pin = pinned 0
1 has 6 = refused held
1 delete 6 = refused held
1 unpin = left
1 delete 6 = true
1 unpin = refused idle
worker 0 retired 2 freed 0 queue 8.1@0 7.1@0
worker 1 retired 2 freed 0 queue 6.1@2 9.1@2
keys -
places pool 7 reached 0 queued 4
";

/// Two workers take turns, line by line, so that the order of their calls is fixed.
#[test]
fn two_workers_take_turns(rt: HostRuntime) {
    let gate = Turns {
        first: AtomicU64::new(0),
        second: AtomicU64::new(0),
    };
    let mut reader = IN_TURNS.as_bytes();
    let mut writer = Vec::new(rt.alloc());
    let result = stress(&rt, rt.alloc(), &mut reader, &mut writer, &gate);
    assert!(&rt; result.is_ok());
    assert_eq!(&rt; writer.as_slice(), IN_TURNS_OUTPUT.as_bytes());
}
