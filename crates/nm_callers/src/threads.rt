//! Two threads that insert, and a third worker that has heard of both, proved from the clauses of
//! `nm_tree` and the page alone.
ghost use Rattle.std.specs.Prelude.{◌≡◌, true, None, IfSome};
ghost use Rattle.nm_model.specs.declared.event.Op.TheVariants.{Insert};
ghost use Rattle.nm_steps.specs.Steps.{PassView, IsOf};
ghost use Rattle.nm_calls.specs.Moments.{AnswerHasMoment};
ghost use Rattle.nm_callers.specs.Meanwhile.{NoneDeleted};

use crate::trees::look_told;
use nm_edge::Key;
use nm_tree::{Tree, Worker};
use std::thread::{Threads, join};

/// A worker that has made an insert, and whether the insert returned true.
#[derive(Drop)]
pub struct Inserted {
    pub worker: Worker,
    pub is_new: bool,
}

/// Inserts a key by this worker.
fn insert_one(tree: &Tree, mut worker: Worker, key: Key, tries: u32) -> Inserted
    requires own { IsOf tree.now worker.pass }
    requires free { worker.held ≡ None }
    ensures own { IsOf tree.now result.worker.pass }
    ensures moment { result.is_new ≡ true
        → AnswerHasMoment worker.pass result.worker.pass Insert key true }
{
    match tree.insert(&mut worker, key, tries) {
        Ok(true) => Inserted {
            worker,
            is_new: true,
        },
        _ => Inserted {
            worker,
            is_new: false,
        },
    }
}

/// Inserts two keys by two workers at the same time, each in a thread of its own.
pub fn insert_both<R: Threads + Sync>(
    rt: &R,
    tree: &Tree,
    one: Worker,
    two: Worker,
    left: Key,
    right: Key,
    tries: u32,
) -> (Inserted, Inserted)
    requires one { IsOf tree.now one.pass }
    requires two { IsOf tree.now two.pass }
    requires first_free { one.held ≡ None }
    requires second_free { two.held ≡ None }
    ensures one { IsOf tree.now result.0.worker.pass }
    ensures two { IsOf tree.now result.1.worker.pass }
    ensures first { result.0.is_new ≡ true
        → AnswerHasMoment one.pass result.0.worker.pass Insert left true }
    ensures second { result.1.is_new ≡ true
        → AnswerHasMoment two.pass result.1.worker.pass Insert right true }
{
    join(
        rt,
        move || -> Inserted
            requires own { IsOf tree.now one.pass }
            requires free { one.held ≡ None }
            ensures own { IsOf tree.entry.now result.worker.pass }
            ensures moment { result.is_new ≡ true
                → AnswerHasMoment one.pass result.worker.pass Insert left true }
        { insert_one(tree, one, left, tries) },
        move || -> Inserted
            requires own { IsOf tree.now two.pass }
            requires free { two.held ≡ None }
            ensures own { IsOf tree.entry.now result.worker.pass }
            ensures moment { result.is_new ≡ true
                → AnswerHasMoment two.pass result.worker.pass Insert right true }
        { insert_one(tree, two, right, tries) },
    )
}

/// Lets a third worker hear what both have seen, and look up what each of them has inserted.
/// `None`: a look-up returned an error. Proved: otherwise each key is found, unless a delete of it
/// took effect after all that its inserter had seen before.
pub fn find_both(
    tree: &Tree,
    one: &mut Worker,
    two: &mut Worker,
    reader: &mut Worker,
    left: Key,
    right: Key,
    tries: u32,
) -> Option<(bool, bool)>
    requires one { IsOf tree.now one.old.pass }
    requires two { IsOf tree.now two.old.pass }
    requires reader { IsOf tree.now reader.old.pass }
    requires free { reader.old.held ≡ None }
    ensures first { (start : PassView) → AnswerHasMoment start one.old.pass Insert left true
        → NoneDeleted tree.now.layout start.view.past reader.new.pass.view.past left
        → IfSome result (λ b. b.0 ≡ true) }
    ensures second { (start : PassView) → AnswerHasMoment start two.old.pass Insert right true
        → NoneDeleted tree.now.layout start.view.past reader.new.pass.view.past right
        → IfSome result (λ b. b.1 ≡ true) }
{
    let first = look_told(tree, one, reader, left, tries).ok()?;
    let second = look_told(tree, two, reader, right, tries).ok()?;
    reader.know_run();
    Some((first, second))
}

/// Inserts two keys in two threads, and then looks up both keys by a third worker that has heard of
/// both. `None`: a call returned an error, or a key was in the set before. Proved: otherwise each
/// key is found, unless a delete of it took effect after all that its inserter had seen before.
pub fn insert_both_then_find<R: Threads + Sync>(
    rt: &R,
    tree: &Tree,
    one: Worker,
    two: Worker,
    reader: &mut Worker,
    left: Key,
    right: Key,
    tries: u32,
) -> Option<(bool, bool)>
    requires one { IsOf tree.now one.pass }
    requires two { IsOf tree.now two.pass }
    requires reader { IsOf tree.now reader.old.pass }
    requires first_free { one.held ≡ None }
    requires second_free { two.held ≡ None }
    requires free { reader.old.held ≡ None }
    ensures first { NoneDeleted tree.now.layout one.pass.view.past reader.new.pass.view.past left
        → IfSome result (λ b. b.0 ≡ true) }
    ensures second { NoneDeleted tree.now.layout two.pass.view.past reader.new.pass.view.past right
        → IfSome result (λ b. b.1 ≡ true) }
{
    let (first, second) = insert_both(rt, tree, one, two, left, right, tries);
    let Inserted {
        worker: mut one,
        is_new: is_first,
    } = first;
    let Inserted {
        worker: mut two,
        is_new: is_second,
    } = second;
    if !is_first {
        return None;
    }
    if !is_second {
        return None;
    }
    find_both(tree, &mut one, &mut two, reader, left, right, tries)
}
