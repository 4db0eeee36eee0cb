//! The text of the answers to the lines of a script.
ghost use Rattle.std.specs.Prelude.{◌≡◌, ◌++◌, OnOk};
ghost use Rattle.nm_files.specs.Lines.{parts};
ghost use Rattle.nm_serial.specs.AnswerLines as spec;

use crate::answer::{Answer, Refusal};
use nm_files::read::pieces::cut;
use nm_files::write::reply::put_number;
use std::alloc::AllocError;

/// Appends a word and a number, and a second word and number.
fn put_numbers(
    out: &mut Vec<u8>,
    word: &[u8],
    first: u64,
    between: &[u8],
    second: u64,
) -> Result<(), AllocError>
    ensures { OnOk result (out.new.items
        ≡ out.old.items ++ spec.two_numbers word.now first between.now second) }
{
    put_number(out, word, first)?;
    put_number(out, between, second)
}

/// Returns the words of a line that made no call.
fn refusal_word(refusal: Refusal) -> &'static [u8]
    ensures { result.now ≡ spec.refusal_words refusal }
{
    match refusal {
        Refusal::Gone => b"refused gone",
        Refusal::Held => b"refused held",
        Refusal::Idle => b"refused idle",
    }
}

/// Appends an answer.
pub fn put_answer(out: &mut Vec<u8>, answer: Answer) -> Result<(), AllocError>
    ensures { OnOk result (out.new.items ≡ out.old.items ++ spec.answer answer) }
{
    match answer {
        Answer::Said(true) => out.extend_from_slice(b"true"),
        Answer::Said(false) => out.extend_from_slice(b"false"),
        Answer::Busy => out.extend_from_slice(b"busy"),
        Answer::Full => out.extend_from_slice(b"full"),
        Answer::Unfinished => out.extend_from_slice(b"unfinished"),
        Answer::Pending => out.extend_from_slice(b"pending"),
        Answer::Pinned(epoch) => put_number(out, b"pinned ", epoch),
        Answer::Moved(epoch) => put_number(out, b"moved ", epoch),
        Answer::Left => out.extend_from_slice(b"left"),
        Answer::Held { worker, epoch } => put_numbers(
            out,
            b"held ",
            u64::from(worker),
            b" ",
            epoch,
        ),
        Answer::Lost(epoch) => put_number(out, b"lost ", epoch),
        Answer::Spent => out.extend_from_slice(b"spent"),
        Answer::Collected { epoch, freed } => put_numbers(out, b"epoch ", epoch, b" freed ", freed),
        Answer::Resigned => out.extend_from_slice(b"resigned"),
        Answer::Refused(refusal) => out.extend_from_slice(refusal_word(refusal)),
    }
}

/// Appends a line of the file with its answer.
pub fn put_line(out: &mut Vec<u8>, line: &[u8], answer: Answer) -> Result<(), AllocError>
    ensures { OnOk result (out.new.items ≡ out.old.items ++ spec.line line.now answer) }
{
    out.extend_from_slice(line)?;
    out.extend_from_slice(b" = ")?;
    put_answer(out, answer)?;
    out.extend_from_slice(b"\n")
}

/// Appends each line of a text with its answer, up to the last answer.
pub fn put_lines(out: &mut Vec<u8>, body: &[u8], answers: &[Answer]) -> Result<(), AllocError>
    ensures { OnOk result (out.new.items
        ≡ out.old.items ++ spec.lines (parts body.now) answers.now) }
{
    let mut rest = Some(body);
    for answer in answers {
        let Some(text) = rest else {
            break;
        };
        let (line, after) = cut(text, b'\n');
        put_line(out, line, *answer)?;
        rest = after;
    }
    Ok(())
}
