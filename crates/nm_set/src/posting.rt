//! Stamps: a worker publishes a note of what it has seen, for the other workers of its tree.
#![tactic(auto, using(crate::proofs::Letters::tally, crate::proofs::Letters::own_letter, crate::proofs::Letters::same_letter, crate::proofs::Letters::heard_of))]

ghost use Rattle.std.specs.Prelude.{◌≡◌, IfSome};
ghost use Rattle.nm_steps.specs.Steps.{IsOf};
ghost use Rattle.nm_set.specs.Posts.{Hears, IsLetter, IsTallyOf, LettersAreInOrder};

use crate::fault::ObserveFault;
use crate::home::Site;
use counted_slot::{Counted, FREE, Fits, MARKED, PRESENT, TAKEN};
use nm_steps::Note;
use nm_tree::{Tree, Worker};

/// What a worker had done when it published a note, or when it was returned.
#[derive(Clone, Copy, Debug, PartialEq, Eq)]
pub struct Stamp {
    /// The number of keys that it had inserted: the links that it had won.
    pub inserted: u64,
    /// The number of keys that it had removed: the flags that it had won, without that of a pending
    /// remove.
    pub removed: u64,
}

/// A note, with what the worker that made it had done by then.
#[derive(Drop)]
pub(crate) struct Letter {
    note: Note,
    posted: Stamp,
}

impl Fits for Letter {
    type Tag = (Site, u32);

    ghost fits = { λ place l. IsLetter place.0.tree place.1 l.posted l.note };
}

/// Where one worker of one tree puts its letter. Its word is `FREE` until there is a first letter,
/// `PRESENT` while there is one, and `MARKED` while a reader has taken it out.
pub(crate) type Mailbox = Counted<Option<Letter>>;

/// Makes a mailbox that has had no letter yet.
pub(crate) fn empty_mailbox(place: &(Site, u32)) -> Mailbox
    ensures { result ≡ place.now }
{
    Counted::new(None, place)
}

/// Puts a letter into the worker's own mailbox, in place of the earlier one, with a note of all
/// that the worker has seen. Returns what it has done so far, or `None` if a reader has taken out
/// the earlier letter at this moment, which then remains.
pub(crate) fn leave_letter(tree: &Tree, mailbox: &Mailbox, worker: &mut Worker) -> Option<Stamp>
    requires own { IsOf tree.now worker.old.pass }
    requires tree { mailbox.now.0.tree ≡ tree.now }
    requires number { mailbox.now.1 ≡ worker.old.pass.view.number }
    ensures same { worker.new ≡ worker.old }
    ensures tally { IfSome result (IsTallyOf worker.old) }
{
    worker.know_run();
    let posted = tally_of(worker);
    let note = tree.note(worker);
    if lay_down(mailbox, Letter { note, posted }) {
        Some(posted)
    } else {
        None
    }
}

/// Returns what a worker has done so far.
pub(crate) fn tally_of(worker: &Worker) -> Stamp
    ensures { IsTallyOf worker.now result }
{
    worker.know_run();
    let counts = worker.ledger();
    let removed = match worker.pending() {
        Some(_) => counts.flags.saturating_sub(1),
        None => counts.flags,
    };
    Stamp {
        inserted: counts.links,
        removed,
    }
}

/// Law: of two workers of one run, a reader that was given as many keys as the writer had inserted
/// and removed, with nothing pending, has heard of all of them, as long as 64 bits count them. What
/// the reader has seen then goes on from what the writer had seen, or from a beginning of that
/// after which the writer has won nothing.
pub fn letters_are_in_order()
    ensures { LettersAreInOrder }
{}

/// Lets a worker hear the letter in a mailbox. The letter remains there, with a note of all that
/// the worker has seen then. Returns what the writer had done, or `None` if there was no letter.
pub(crate) fn read_letter(
    tree: &Tree,
    mailbox: &Mailbox,
    worker: &mut Worker,
) -> Result<Option<Stamp>, ObserveFault>
    requires own { IsOf tree.now worker.old.pass }
    requires tree { mailbox.now.0.tree ≡ tree.now }
    ensures { Hears tree.now mailbox.now.1 worker.old worker.new result }
{
    let Some(found) = take_up(mailbox) else {
        return Err(ObserveFault::Busy);
    };
    let Some(letter) = found else {
        return Ok(None);
    };
    let Letter { note, posted } = letter;
    tree.hear(worker, note);
    let note = tree.note(worker);
    put_back(mailbox, Letter { note, posted });
    Ok(Some(posted))
}

/// Puts a letter in place of the one before, and returns true; returns false and changes nothing if
/// a reader has taken that one out, or if there was none.
fn lay_down(mailbox: &Mailbox, letter: Letter) -> bool
    requires { IsLetter mailbox.now.0.tree mailbox.now.1 letter.posted letter.note }
{
    let (found, claim) = mailbox.turn(PRESENT, TAKEN);
    if found == PRESENT {
        claim.put(Some(letter), PRESENT);
        return true;
    }
    claim.done();
    lay_first(mailbox, letter)
}

/// Puts the first letter into a mailbox, and returns true; returns false and changes nothing if
/// there was one before.
fn lay_first(mailbox: &Mailbox, letter: Letter) -> bool
    requires { IsLetter mailbox.now.0.tree mailbox.now.1 letter.posted letter.note }
{
    let (found, claim) = mailbox.turn(FREE, TAKEN);
    if found == FREE {
        claim.put(Some(letter), PRESENT);
        return true;
    }
    claim.done();
    false
}

/// Takes the letter out of a mailbox, until `put_back`. Returns `Some(None)` if there was no letter
/// yet, and `None` if another worker is at the mailbox.
fn take_up(mailbox: &Mailbox) -> Option<Option<Letter>>
    ensures { IfSome result (λ found. IfSome found
        (λ l. IsLetter mailbox.now.0.tree mailbox.now.1 l.posted l.note)) }
{
    let (found, claim) = mailbox.turn(PRESENT, TAKEN);
    if found == PRESENT {
        return Some(claim.put(None, MARKED));
    }
    claim.done();
    if found == FREE { Some(None) } else { None }
}

/// Puts a letter back into the mailbox from which it was taken. Only the reader that took it out
/// puts it back, so nothing was put there in between.
fn put_back(mailbox: &Mailbox, letter: Letter)
    requires { IsLetter mailbox.now.0.tree mailbox.now.1 letter.posted letter.note }
{
    let (found, claim) = mailbox.turn(MARKED, TAKEN);
    if found == MARKED {
        claim.put(Some(letter), PRESENT);
        return;
    }
    claim.done();
}
