//! Workers that pop the least key, as a scheduler takes the task that is due first, proved from the
//! clauses of `nm_tree` and the page alone.
ghost use Rattle.std.specs.Prelude.{ℕ, ◌≢◌, ◌≤◌, ◌<◌, None, IfSome};
ghost use Rattle.nm_edge.specs.Keys.{IsKey};
ghost use Rattle.nm_steps.specs.Steps.{PassView, IsOf, IsSamePass, HasSeenAllOf};
ghost use Rattle.nm_tree.specs.Calls.{MayCall};
ghost use Rattle.nm_tree.specs.Popping.{Takes};
ghost use Rattle.nm_callers.specs.Meanwhile.{NoneInserted};
ghost use Rattle.nm_callers.specs.Taking.{StandsThroughout};

use crate::trees::tell_worker;
use nm_edge::Key;
use nm_tree::{Tree, Worker};
use std::thread::{Threads, join};

/// Pops the least key by one worker, and then by another one that has heard of it. `None`: one of
/// them popped no key. Proved: otherwise these are two different keys, unless an insert of the
/// first one took effect after all that the first worker had seen before. Proved: no key that was
/// in the set all the time is passed over; neither of the two is above such a key.
pub fn take_both(tree: &Tree, one: &mut Worker, two: &mut Worker, tries: u32) -> Option<(Key, Key)>
    requires one { MayCall tree.now one.old }
    requires two { MayCall tree.now two.old }
    ensures apart { IfSome result (λ keys. NoneInserted two.new.pass.view.layout
        one.old.pass.view.past two.new.pass.view.past keys.0 → keys.0 ≢ keys.1) }
    ensures passed { (k : ℕ) → IsKey k
        → StandsThroughout two.new.pass.view.layout one.old.pass.view.past
        two.new.pass.view.past k → IfSome result (λ keys. (keys.0 ≤ k) × (keys.1 ≤ k)) }
{
    let Ok(Some(first)) = tree.pop_first(one, tries) else {
        return None;
    };
    tell_worker(tree, one, two);
    let Ok(Some(second)) = tree.pop_first(two, tries) else {
        return None;
    };
    Some((first, second))
}

/// A worker that was asked to pop the least key, and the key that it popped.
#[derive(Drop)]
pub struct Taken {
    pub worker: Worker,
    pub key: Option<Key>,
}

/// Pops the least key by this worker.
fn take_one(tree: &Tree, mut worker: Worker, tries: u32) -> Taken
    requires may { MayCall tree.now worker }
    ensures same { IsSamePass worker.pass result.worker.pass }
    ensures past { HasSeenAllOf result.worker.pass worker.pass }
    ensures took { IfSome result.key
        (λ key. Takes ◌<◌ worker.pass result.worker.pass (Some key)) }
{
    match tree.pop_first(&mut worker, tries) {
        Ok(key) => Taken { worker, key },
        Err(_) => Taken { worker, key: None },
    }
}

/// Pops the least key by two workers at the same time, each in a thread of its own.
pub fn take_at_once<R: Threads + Sync>(
    rt: &R,
    tree: &Tree,
    one: Worker,
    two: Worker,
    tries: u32,
) -> (Taken, Taken)
    requires one { MayCall tree.now one }
    requires two { MayCall tree.now two }
    ensures one { IsSamePass one.pass result.0.worker.pass }
    ensures two { IsSamePass two.pass result.1.worker.pass }
    ensures first { IfSome result.0.key
        (λ key. Takes ◌<◌ one.pass result.0.worker.pass (Some key)) }
    ensures second { IfSome result.1.key
        (λ key. Takes ◌<◌ two.pass result.1.worker.pass (Some key)) }
{
    join(
        rt,
        move || -> Taken
            requires may { MayCall tree.now one }
            ensures same { IsSamePass one.pass result.worker.pass }
            ensures took { IfSome result.key
                (λ key. Takes ◌<◌ one.pass result.worker.pass (Some key)) }
        { take_one(tree, one, tries) },
        move || -> Taken
            requires may { MayCall tree.now two }
            ensures same { IsSamePass two.pass result.worker.pass }
            ensures took { IfSome result.key
                (λ key. Takes ◌<◌ two.pass result.worker.pass (Some key)) }
        { take_one(tree, two, tries) },
    )
}

/// Pops the least key by two workers, each in a thread of its own, and lets a reader hear of both.
/// `None`: one of them popped no key. Proved: otherwise these are two different keys, whichever was
/// popped first, unless an insert of the first one took effect after what both had seen before.
/// Proved: no key that was in the set all the time is passed over; neither of the two is above such
/// a key.
pub fn take_in_threads<R: Threads + Sync>(
    rt: &R,
    tree: &Tree,
    one: Worker,
    two: Worker,
    reader: &mut Worker,
    tries: u32,
) -> Option<(Key, Key)>
    requires one { MayCall tree.now one }
    requires two { MayCall tree.now two }
    requires reader { IsOf tree.now reader.old.pass }
    requires others { one.pass.view.number ≢ two.pass.view.number }
    ensures apart { (start : PassView) → HasSeenAllOf one.pass start → HasSeenAllOf two.pass start
        → IfSome result (λ keys. NoneInserted tree.now.layout start.view.past
        reader.new.pass.view.past keys.0 → keys.0 ≢ keys.1) }
    ensures passed { (start : PassView) → HasSeenAllOf one.pass start → HasSeenAllOf two.pass start
        → (k : ℕ) → IsKey k
        → StandsThroughout tree.now.layout start.view.past reader.new.pass.view.past k
        → IfSome result (λ keys. (keys.0 ≤ k) × (keys.1 ≤ k)) }
{
    let (first, second) = take_at_once(rt, tree, one, two, tries);
    let Taken {
        worker: mut one,
        key: first,
    } = first;
    let Taken {
        worker: mut two,
        key: second,
    } = second;
    tell_worker(tree, &mut one, reader);
    tell_worker(tree, &mut two, reader);
    reader.know_run();
    Some((first?, second?))
}
