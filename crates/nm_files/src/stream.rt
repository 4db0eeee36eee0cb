//! Reads the bytes of a reader, and writes a text to a writer.
ghost use Rattle.std.specs.Prelude.{◌≡◌, ◌<◌, ◌≤◌, ◌⊎◌, length, take, drop, Some, IfOk, IfSome, OnOk, IfErr};
ghost use Rattle.std.specs.Io.KnownBytes.{Appends, Consumes, IsAtEnd};

use crate::read::fault::RunFault;
use std::alloc::Global;
use std::io::{Read, Write};

/// The largest number of bytes that is read: the length of the longest correct file, and one more.
pub const LIMIT: usize = 12_100_122;

// The number of bytes per read. They are on the stack, which may have only 64 kilobytes.
const CHUNK: usize = 8_192;

/// Does one read. A read that returns no byte for a chunk with room is the end.
fn read_some<R: Read>(reader: &mut R, chunk: &mut [u8]) -> Result<usize, RunFault>
    ensures bound { IfOk result (λ n. n ≤ length chunk.new) }
    ensures bytes { IfOk result
        (λ n. Consumes (R.remaining reader.old) (R.remaining reader.new) (take n chunk.new)) }
    ensures end { IfOk result (λ n. n ≡ 0 → 0 < length chunk.new
        → IsAtEnd (R.remaining reader.new)) }
    ensures err { IfErr result (λ e. e ≡ RunFault.Read) }
{
    match reader.read(chunk) {
        Ok(n) => Ok(n),
        Err(_) => Err(RunFault::Read),
    }
}

/// Reads to the end, or to the limit. Any error ends it, even an interruption.
pub fn input_of<R: Read>(alloc: Global, reader: &mut R) -> Result<Vec<u8>, RunFault>
    ensures bytes { IfOk result
        (λ v. IfSome (R.remaining reader.old) (λ input. v.items ≡ take LIMIT input)) }
    ensures rest { OnOk result
        (IfSome (R.remaining reader.old)
        (λ input. R.remaining reader.new ≡ Some (drop LIMIT input))) }
    ensures err { IfErr result (λ e. (e ≡ RunFault.Read) ⊎ (e ≡ RunFault.NoMemory)) }
{
    let mut bytes = Vec::new(alloc);
    let mut chunk = [0u8; CHUNK];
    while bytes.len() < LIMIT {
        let want = CHUNK.min(LIMIT - bytes.len());
        let n = read_some(reader, &mut chunk[..want])?;
        if n == 0 {
            break;
        }
        bytes
            .extend_from_slice(&chunk[..n])
            .map_err(|_| RunFault::NoMemory)?;
    }
    Ok(bytes)
}

/// Writes all of the text, and flushes the writer. Any error ends it, even an interruption.
pub fn write_text<W: Write>(writer: &mut W, text: &[u8]) -> Result<(), RunFault>
    ensures ok { OnOk result (Appends (W.contents writer.old) (W.contents writer.new) text.now) }
    ensures err { IfErr result (λ e. e ≡ RunFault.Write) }
{
    let mut done = 0usize;
    while done < text.len() {
        match writer.write(&text[done..]) {
            Ok(0) | Err(_) => return Err(RunFault::Write),
            Ok(n) => done += n,
        }
    }
    match writer.flush() {
        Ok(()) => Ok(()),
        Err(_) => Err(RunFault::Write),
    }
}
