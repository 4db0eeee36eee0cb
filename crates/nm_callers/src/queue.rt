//! A queue of tasks, which are keys of a set: members pop the least task, proved from the clauses
//! of `nm_set` and the page alone.
ghost use Rattle.std.specs.Prelude.{ℕ, ◌≡◌, ◌≢◌, ◌≤◌, IfSome};
ghost use Rattle.nm_edge.specs.Keys.{IsKey};
ghost use Rattle.nm_callers.specs.Meanwhile.{NoneInserted};
ghost use Rattle.nm_callers.specs.Taking.{StandsThroughout};

use nm_edge::Key;
use nm_set::{Member, Options};

/// Pops the least task by one member, and then by another one that has heard of it. `None`: one of
/// them popped no task. Proved: otherwise these are two different tasks, unless an insert of the
/// first one took effect after all that the first member had seen before. So each task is taken by
/// at most one of them. Proved: no task that was in the set all the time is passed over; neither of
/// the two is above such a task.
pub fn take_two_tasks(one: &mut Member, two: &mut Member, options: &Options) -> Option<(Key, Key)>
    requires same { one.old.tree ≡ two.old.tree }
    ensures apart { IfSome result (λ keys. NoneInserted two.new.worker.pass.view.layout
        one.old.worker.pass.view.past two.new.worker.pass.view.past keys.0 → keys.0 ≢ keys.1) }
    ensures passed { (k : ℕ) → IsKey k
        → StandsThroughout two.new.worker.pass.view.layout one.old.worker.pass.view.past
        two.new.worker.pass.view.past k → IfSome result (λ keys. (keys.0 ≤ k) × (keys.1 ≤ k)) }
{
    let Ok(Some(first)) = one.pop_first(options) else {
        return None;
    };
    let note = one.note();
    two.hear(note);
    let Ok(Some(second)) = two.pop_first(options) else {
        return None;
    };
    one.know_run();
    two.know_run();
    Some((first, second))
}
