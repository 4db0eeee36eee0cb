//! The entry of a line, besides its worker: an event of a schedule, or a call of a script.
ghost use Rattle.std.specs.Prelude.{◌≡◌, List, [], ◌∷◌, true, refl, map};
ghost use Rattle.std.specs.List.{list_all};
ghost use Rattle.std.specs.Str.{bytes_eq};
ghost use Rattle.nm_files.specs.Values.{values_of};
ghost use Rattle.nm_files.specs.Values.Argument.{Worker};
ghost use Rattle.nm_files.specs.Kinds.{Kind, events, calls, with_view};
ghost use Rattle.nm_files.specs.Kinds as spec;

use crate::read::fault::Reason;
use crate::read::header::Forms;
use crate::read::value::{Arguments, worker_of};
use nm_edge::Key;
use nm_model::Event;

/// A call on the set by one of its workers.
#[derive(Clone, Copy, Debug, PartialEq, Eq)]
pub enum ScriptCall {
    Has(Key),
    Insert(Key),
    Delete(Key),
    Finish,
    Pin,
    Unpin,
    Advance,
    Collect,
    /// The worker ends early, and the named one holds its queue from then on.
    Resign(u32),
}

/// The entry of a line: an event of a schedule, or a call of a script.
pub(crate) trait FileEntry: Copy {
    ghost kinds: { List (Kind Self) };

    ghost few: { list_all spec.is_short kinds ≡ true };

    /// Parses a word and the fields after it, in a file with this number of workers, and with these
    /// forms of lines. Errors: `Kind` for a word of no kind; the least reason for
    /// which the fields are not those of the kind.
    fn made(workers: u32, forms: Forms, word: &[u8], fields: &[&[u8]]) -> Result<Self, Reason>
        ensures { result
            ≡ spec.made_by kinds workers forms word.now (map (λ f. f.now) fields.now) };
}

/// Returns whether a word is this one.
fn is(word: &[u8], name: &[u8]) -> bool
    ensures { result ≡ bytes_eq word.now name.now }
{
    word == name
}

/// Parses the fields after a word.
fn values<T: Arguments>(fields: &[&[u8]]) -> Result<T, Reason>
    ensures { result ≡ T.values (map (λ f. f.now) fields.now) }
{
    T::values(fields)
}

/// Each row is one kind of event: its word, and the event that it makes of the fields.
impl FileEntry for Event {
    ghost kinds = { events };

    ghost few = { refl };

    #[tactic(auto, unfolding(crate::specs::Kinds::made_by))]
    fn made(_: u32, forms: Forms, word: &[u8], fields: &[&[u8]]) -> Result<Event, Reason> {
        use Event::*;
        let is_of_operation = forms.is_extended && !fields.is_empty();
        match word {
            _ if is(word, b"sight") && is_of_operation => values(fields).map(|(
                op,
                (key, ()),
            )| SightFor(op, key)),
            _ if is(word, b"sight") => values(fields).map(|()| Sight),
            _ if is(word, b"announce") => values(fields).map(|()| Announce),
            _ if is(word, b"leave") && is_of_operation => values(fields).map(|(
                answer,
                (),
            )| LeaveWith(answer)),
            _ if is(word, b"leave") => values(fields).map(|()| Leave),
            _ if is(word, b"scan") => values(fields).map(|(worker, ())| Scan(worker)),
            _ if is(word, b"advance") => values(fields).map(|()| Advance),
            _ if is(word, b"claim") => values(fields).map(|(slot, ())| Claim(slot)),
            _ if is(word, b"give") => values(fields).map(|(slot, ())| Give(slot)),
            _ if is(word, b"look") => values(fields).map(|(slot, (field, ()))| Look(slot, field)),
            _ if is(word, b"fill") => values(fields).map(|(slot, (field, (value, ())))| Fill(
                slot, field, value,
            )),
            _ if is(word, b"link") => values(fields).map(|(parent, (side, (leaf, (new, ()))))| Link(
                parent, side, leaf, new,
            )),
            _ if is(word, b"flag") => values(fields).map(|(parent, (side, (leaf, ())))| Flag(
                parent, side, leaf,
            )),
            _ if is(word, b"tag") => values(fields).map(|(parent, (side, ()))| Tag(parent, side)),
            _ if is(word, b"splice") => values(fields).map(|(
                ancestor,
                (side, (successor, (parent, (keep, ())))),
            )| Splice(ancestor, side, successor, parent, keep)),
            _ if is(word, b"swap") && forms.has_swaps => values(fields).map(|(
                parent,
                (side, (leaf, (new, ()))),
            )| Swap(parent, side, leaf, new)),
            _ => Err(Reason::Kind),
        }
    }
}

/// Parses the only field into a worker, whose number must be below `workers`.
fn heir(workers: u32, fields: &[&[u8]]) -> Result<u32, Reason>
    ensures { with_view (λ heir. (heir, tt)) result
        ≡ values_of workers (Worker ∷ []) (map (λ f. f.now) fields.now) }
{
    match fields {
        [heir] => worker_of(workers, heir),
        _ => Err(Reason::Fields),
    }
}

/// Each row is one kind of call: its word, and the call that it makes of the fields.
impl FileEntry for ScriptCall {
    ghost kinds = { calls };

    ghost few = { refl };

    #[tactic(auto, unfolding(crate::specs::Kinds::made_by))]
    fn made(
        workers: u32,
        forms: Forms,
        word: &[u8],
        fields: &[&[u8]],
    ) -> Result<ScriptCall, Reason> {
        use ScriptCall::*;
        match word {
            _ if is(word, b"resign") && forms.is_extended => heir(workers, fields).map(
                |heir| Resign(heir),
            ),
            _ if is(word, b"has") => values(fields).map(|(key, ())| Has(key)),
            _ if is(word, b"insert") => values(fields).map(|(key, ())| Insert(key)),
            _ if is(word, b"delete") => values(fields).map(|(key, ())| Delete(key)),
            _ if is(word, b"finish") => values(fields).map(|()| Finish),
            _ if is(word, b"pin") => values(fields).map(|()| Pin),
            _ if is(word, b"unpin") => values(fields).map(|()| Unpin),
            _ if is(word, b"advance") => values(fields).map(|()| Advance),
            _ if is(word, b"collect") => values(fields).map(|()| Collect),
            _ => Err(Reason::Kind),
        }
    }
}
