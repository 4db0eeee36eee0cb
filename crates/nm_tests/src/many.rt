//! Many workers, each in a thread of its own, over few keys. With `rt try --test` it needs
//! `--seconds 600`.
use super::gates::Open;
use nm_serial::stress;
use std::alloc::{AllocError, Global};

const WORKERS: u32 = 64;

/// The number of lines of each worker.
const ROUNDS: u32 = 1_500;

const NODES: u64 = 4_096;

/// Appends one line: in turn two inserts, three deletes, a look-up, an advance of the epoch and a
/// collection.
fn put_call(text: &mut String, alloc: Global, worker: u32, round: u32) -> Result<(), AllocError> {
    let key = round.wrapping_mul(7).wrapping_add(worker) % 200;
    let line = match round % 8 {
        0 | 3 => format!(in alloc; "{worker} insert {key}\n")?,
        1 | 4 | 6 => format!(in alloc; "{worker} delete {key}\n")?,
        2 => format!(in alloc; "{worker} has {key}\n")?,
        5 => format!(in alloc; "{worker} advance\n")?,
        _ => format!(in alloc; "{worker} collect\n")?,
    };
    text.push_str(line.as_str())
}

/// Returns a script of `ROUNDS` rounds, with a line of each worker in each round.
fn script(alloc: Global) -> Result<String, AllocError> {
    let mut text = format!(in alloc; "stress 2 {NODES} {WORKERS} 64\n")?;
    for round in 0..ROUNDS {
        for worker in 0..WORKERS {
            put_call(&mut text, alloc, worker, round)?;
        }
    }
    Ok(text)
}

/// Returns how many lines a text has, and the sum of the numbers in the last line.
fn last_sum(text: &[u8]) -> (u64, u64) {
    let mut lines = 0u64;
    let mut last = 0u64;
    let mut sum = 0u64;
    let mut number = 0u64;
    for byte in text {
        if byte.is_ascii_digit() {
            let digit = u64::from(byte.wrapping_sub(b'0'));
            number = number.wrapping_mul(10).wrapping_add(digit);
        } else {
            sum = sum.wrapping_add(number);
            number = 0;
        }
        if *byte == b'\n' {
            lines = lines.wrapping_add(1);
            last = sum;
            sum = 0;
        }
    }
    (lines, last)
}

#[test]
fn many_workers_end_and_add_up(rt: HostRuntime) {
    let Ok(text) = script(rt.alloc()) else {
        panic!(&rt; "no memory for the script")
    };
    let mut reader = text.as_bytes();
    let mut writer = Vec::new(rt.alloc());
    let result = stress(&rt, rt.alloc(), &mut reader, &mut writer, &Open);
    assert!(&rt; result.is_ok());
    let (lines, places) = last_sum(writer.as_slice());
    assert_eq!(&rt; lines, u64::from(WORKERS * ROUNDS + WORKERS + 2));
    assert_eq!(&rt; places, NODES - 5);
}
