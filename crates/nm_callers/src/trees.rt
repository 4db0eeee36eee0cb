//! What a worker of a tree finds that has heard of another one's call, proved from the clauses of
//! `nm_tree` and the page alone.
ghost use Rattle.std.specs.Prelude.{◌≡◌, ◌≢◌, true, false, None, IfOk, IfSome};
ghost use Rattle.nm_model.specs.declared.event.Op.TheVariants.{Has, Insert, Delete};
ghost use Rattle.nm_steps.specs.Rules.{ExtendsStores};
ghost use Rattle.nm_steps.specs.Steps.{PassView, IsOf, IsSamePass, HasHeard, HasSeenAllOf};
ghost use Rattle.nm_steps.specs.Values.{HasSeenStores, HasValues};
ghost use Rattle.nm_calls.specs.Moments.{AnswerHasMoment};
ghost use Rattle.nm_walks.specs.WonCounts.{won_flags};
ghost use Rattle.nm_callers.specs.Meanwhile.{NoneDeleted, NoneInserted};

use nm_edge::Key;
use nm_tree::{CallFault, Tree, Worker};

/// Lets one worker hear what another one has seen.
pub fn tell_worker(tree: &Tree, from: &mut Worker, to: &mut Worker)
    requires from { IsOf tree.now from.old.pass }
    requires to { IsOf tree.now to.old.pass }
    ensures from { from.new ≡ from.old }
    ensures own { IsOf tree.now to.new.pass }
    ensures to { HasHeard to.old.pass to.new.pass }
    ensures held { to.new.held ≡ to.old.held }
    ensures heard { HasSeenAllOf to.new.pass from.old.pass }
    ensures past { HasSeenAllOf to.new.pass to.old.pass }
    ensures stores { ExtendsStores to.new.pass.view.stores to.old.pass.view.stores }
    ensures heard_stores { ExtendsStores to.new.pass.view.stores from.old.pass.view.stores }
    ensures values { HasValues tree.now → HasSeenStores to.new.pass.view }
{
    let note = tree.note(from);
    tree.hear(to, note);
}

/// Looks up a key by a worker that hears what another one has seen. Proved: if an insert of the key
/// by that other worker returned true, the key is found. The exception is that, in a history of the
/// turns that the reader has then seen, a true delete of it has its moment (linearization point)
/// after all that the inserter had seen before its call. Proved: if a delete of the key returned
/// true, it is not found, with the same exception for a true insert.
pub fn look_told(
    tree: &Tree,
    one: &mut Worker,
    two: &mut Worker,
    key: Key,
    tries: u32,
) -> Result<bool, CallFault>
    requires one { IsOf tree.now one.old.pass }
    requires two { IsOf tree.now two.old.pass }
    requires free { two.old.held ≡ None }
    ensures one { one.new ≡ one.old }
    ensures two { IsSamePass two.old.pass two.new.pass }
    ensures past { HasSeenAllOf two.new.pass two.old.pass }
    ensures told { HasSeenAllOf two.new.pass one.old.pass }
    ensures held { two.new.held ≡ None }
    ensures moment { IfOk result (AnswerHasMoment one.old.pass two.new.pass Has key) }
    ensures found { (start : PassView) → AnswerHasMoment start one.old.pass Insert key true
        → NoneDeleted two.new.pass.view.layout start.view.past two.new.pass.view.past key
        → IfOk result (λ b. b ≡ true) }
    ensures missed { (start : PassView) → AnswerHasMoment start one.old.pass Delete key true
        → NoneInserted two.new.pass.view.layout start.view.past two.new.pass.view.past key
        → IfOk result (λ b. b ≡ false) }
{
    tell_worker(tree, one, two);
    tree.has(two, key, tries)
}

/// Inserts a key by one worker, and then looks it up by another one that has heard of it. `None`: a
/// call returned an error, or the key was in the set before. Proved: otherwise the key is found,
/// unless a delete of it took effect after all that the inserter had seen before.
pub fn insert_then_find(
    tree: &Tree,
    one: &mut Worker,
    two: &mut Worker,
    key: Key,
    tries: u32,
) -> Option<bool>
    requires one { IsOf tree.now one.old.pass }
    requires two { IsOf tree.now two.old.pass }
    requires first_free { one.old.held ≡ None }
    requires free { two.old.held ≡ None }
    ensures found { NoneDeleted two.new.pass.view.layout one.old.pass.view.past
        two.new.pass.view.past key → IfSome result (λ b. b ≡ true) }
{
    match tree.insert(one, key, tries) {
        Ok(true) => look_told(tree, one, two, key, tries).ok(),
        _ => None,
    }
}

/// Deletes a key by one worker, and then looks it up by another one that has heard of it. `None`: a
/// call returned an error, or the key was not in the set. Proved: otherwise the key is absent,
/// unless an insert of it took effect after all that the deleter had seen before.
pub fn delete_then_miss(
    tree: &Tree,
    deleter: &mut Worker,
    reader: &mut Worker,
    key: Key,
    tries: u32,
) -> Option<bool>
    requires deleter { IsOf tree.now deleter.old.pass }
    requires reader { IsOf tree.now reader.old.pass }
    requires first_free { deleter.old.held ≡ None }
    requires free { reader.old.held ≡ None }
    ensures missed { NoneInserted reader.new.pass.view.layout deleter.old.pass.view.past
        reader.new.pass.view.past key → IfSome result (λ b. b ≡ false) }
{
    match tree.delete(deleter, key, tries) {
        Ok(true) => look_told(tree, deleter, reader, key, tries).ok(),
        _ => None,
    }
}

/// Inserts a key by one worker of a tree that has two, and looks it up by the other one, which has
/// heard of it. Neither has flagged a leaf before. `None`: a call returned an error, or the key was
/// in the set before. Proved: otherwise the key is found, because no worker can have deleted it.
pub fn insert_then_find_alone(
    tree: &Tree,
    inserter: &mut Worker,
    reader: &mut Worker,
    key: Key,
    tries: u32,
) -> Option<bool>
    requires pair { tree.now.layout.workers ≡ 2 }
    requires apart { inserter.old.pass.view.number ≢ reader.old.pass.view.number }
    requires inserter { IsOf tree.now inserter.old.pass }
    requires reader { IsOf tree.now reader.old.pass }
    requires first_free { inserter.old.held ≡ None }
    requires free { reader.old.held ≡ None }
    requires first_unflagged { won_flags inserter.old.pass.view.log ≡ 0 }
    requires unflagged { won_flags reader.old.pass.view.log ≡ 0 }
    ensures found { IfSome result (λ b. b ≡ true) }
{
    let Ok(true) = tree.insert(inserter, key, tries) else {
        return None;
    };
    inserter.know_run();
    tell_worker(tree, inserter, reader);
    let found = tree.has(reader, key, tries);
    tell_worker(tree, reader, inserter);
    inserter.know_run();
    reader.know_run();
    found.ok()
}
