//! The arguments of a line: what each field must be, and its value.
ghost use Rattle.std.specs.Prelude.{◌≡◌, ℕ, List, Result, map};
ghost use Rattle.nm_files.specs.declared.read.fault.Reason.{Reason as ReasonOf};
ghost use Rattle.nm_files.specs.Lines as lines;
ghost use Rattle.nm_files.specs.Values as spec;

use crate::read::fault::Reason;
use crate::read::field::{number, place};
use nm_edge::{Key, Side};
use nm_model::{Field, Op};

/// The value of a field of a line. A `u32` is the number of a slot or of a worker.
pub(crate) trait Argument: Copy {
    ghost value: { List ℕ → Result Self ReasonOf };

    /// Parses a field. Errors: `Fields` if it has to be a word and is another one; `Number`; `Key`
    /// if it is above the keys of the set.
    fn value(field: &[u8]) -> Result<Self, Reason>
        ensures { result ≡ value field.now };
}

impl Argument for u32 {
    ghost value = { lines.place };

    fn value(field: &[u8]) -> Result<u32, Reason> {
        place(field)
    }
}

impl Argument for u64 {
    ghost value = { lines.number };

    fn value(field: &[u8]) -> Result<u64, Reason> {
        number(field)
    }
}

impl Argument for Key {
    ghost value = { spec.key_field };

    fn value(field: &[u8]) -> Result<Key, Reason> {
        let n = number(field)?;
        match Key::new(n) {
            Some(key) => Ok(key),
            None => Err(Reason::Key),
        }
    }
}

/// Returns the value that belongs to this word. Errors: `Fields` if there is none.
fn by_word<T: Copy>(words: &[(&[u8], T)], given: &[u8]) -> Result<T, Reason>
    ensures { result ≡ spec.by_word (map (λ w. (w.0.now, w.1)) words.now) given.now }
{
    for (word, value) in words {
        if given == *word {
            return Ok(*value);
        }
    }
    Err(Reason::Fields)
}

impl Argument for Field {
    ghost value = { spec.by_word spec.field_words };

    fn value(given: &[u8]) -> Result<Field, Reason> {
        let words = [
            (b"key".as_slice(), Field::Key),
            (b"left", Field::Edge(Side::Left)),
            (b"right", Field::Edge(Side::Right)),
            (b"birth", Field::Birth),
        ];
        by_word(&words, given)
    }
}

impl Argument for Side {
    ghost value = { spec.by_word spec.side_words };

    fn value(given: &[u8]) -> Result<Side, Reason> {
        let words = [(b"left".as_slice(), Side::Left), (b"right", Side::Right)];
        by_word(&words, given)
    }
}

impl Argument for Op {
    ghost value = { spec.by_word spec.op_words };

    fn value(given: &[u8]) -> Result<Op, Reason> {
        let words = [
            (b"has".as_slice(), Op::Has),
            (b"insert", Op::Insert),
            (b"delete", Op::Delete),
        ];
        by_word(&words, given)
    }
}

/// The answer of an operation.
impl Argument for bool {
    ghost value = { spec.by_word spec.answer_words };

    fn value(given: &[u8]) -> Result<bool, Reason> {
        let words = [(b"true".as_slice(), true), (b"false", false)];
        by_word(&words, given)
    }
}

/// Returns both values, or the reason of the one that failed; the lesser one if both failed.
pub(crate) fn both<A: Drop, B: Drop>(
    a: Result<A, Reason>,
    b: Result<B, Reason>,
) -> Result<(A, B), Reason>
    ensures { result ≡ spec.both a b }
{
    match (a, b) {
        (Ok(a), Ok(b)) => Ok((a, b)),
        (Err(reason), Ok(_)) | (Ok(_), Err(reason)) => Err(reason),
        (Err(first), Err(second)) => Err(first.least(second)),
    }
}

/// The values of the fields after a word, from the first to the last: `(u32, (Side, ()))` are those
/// of two fields.
pub(crate) trait Arguments: Copy {
    ghost values: { List (List ℕ) → Result Self ReasonOf };

    /// Parses these fields. Errors: the least reason for which one fails; `Fields` if there are more
    /// or fewer.
    fn values(fields: &[&[u8]]) -> Result<Self, Reason>
        ensures { result ≡ values (map (λ f. f.now) fields.now) };
}

impl Arguments for () {
    ghost values = { spec.no_values };

    fn values(fields: &[&[u8]]) -> Result<(), Reason> {
        if fields.is_empty() {
            Ok(())
        } else {
            Err(Reason::Fields)
        }
    }
}

impl<A: Argument, R: Arguments> Arguments for (A, R) {
    ghost values = { spec.first_and_rest A.value R.values };

    fn values(fields: &[&[u8]]) -> Result<(A, R), Reason> {
        let [field, rest @ ..] = fields else {
            return Err(Reason::Fields);
        };
        both(A::value(field), R::values(rest))
    }
}

/// Parses a field into a worker, whose number must be below `workers`.
pub(crate) fn worker_of(workers: u32, field: &[u8]) -> Result<u32, Reason>
    ensures { result ≡ spec.worker_of workers field.now }
{
    let worker = place(field)?;
    if worker < workers {
        Ok(worker)
    } else {
        Err(Reason::Worker)
    }
}
