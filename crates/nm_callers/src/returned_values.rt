//! A worker of a tree with values that takes back the values of removed keys, proved from the clauses of
//! `nm_tree` and the page alone.
ghost use Rattle.std.specs.Prelude.{ℕ, ◌≡◌, ◌≤◌, true, length, take, All, Contains, IfSome, IsSome, Ok, Some};
ghost use Rattle.nm_steps.specs.Steps.{IsOf};
ghost use Rattle.nm_steps.specs.Values.{HasValues};
ghost use Rattle.nm_callers.specs.Returning.{HasComeBack, HasNotComeBack};

use crate::trees::tell_worker;
use nm_edge::Key;
use nm_tree::{CallFault, Query, Tree, Worker};

/// Frees nodes, and writes the values that come back to `out`; returns how many there are. Proved, about
/// each of them: a leaf was cut off that had this value, and the leaf is freed. Each worker that was
/// pinned at the cut has unpinned since. So no worker that found the value in the map is still pinned, and
/// the object that the value names may be freed.
pub fn take_back(tree: &Tree, worker: &mut Worker, out: &mut [u64]) -> usize
    requires own { IsOf tree.now worker.old.pass }
    requires values { HasValues tree.now }
    ensures own { IsOf tree.now worker.new.pass }
    ensures back { (v : ℕ) → Contains (take result out.new) v → HasComeBack worker.new.pass.view v }
    ensures few { result ≤ length out.new }
{
    tree.collect_values(worker, out).values
}

/// A value that a worker got under its pin, and how many values came back to another worker.
#[derive(Clone, Copy, Debug)]
pub struct GotBeside {
    /// The value; `None` if the map did not have the key, or the call returned an error.
    pub found: Option<u64>,
    /// The number of values that came back.
    pub back: usize,
}

/// Returns the value that was found, if there is one.
fn found_value(found: Result<Option<u64>, CallFault>) -> Option<u64>
    ensures { IfSome result (λ v. found ≡ Ok (Some v)) }
{
    match found {
        Ok(Some(value)) => Some(value),
        Ok(None) => None,
        Err(_) => None,
    }
}

/// Gets the value of a key by a worker that its caller has pinned. Meanwhile another worker takes back
/// the values of removed keys, and the reader hears of it under the same pin. Proved, if the reader got
/// a value: the leaf that had it is not freed, and the value that was stored for this leaf has not come
/// back. Each value that came back is of another leaf, and its object may be reset while the reader
/// reads the object of its own value.
pub fn get_while_collected(
    tree: &Tree,
    reader: &mut Worker,
    other: &mut Worker,
    key: Key,
    out: &mut [u64],
) -> GotBeside
    requires reader { IsOf tree.now reader.old.pass }
    requires other { IsOf tree.now other.old.pass }
    requires values { HasValues tree.now }
    requires pinned { IsSome reader.old.held }
    ensures pinned { IsSome reader.new.held }
    ensures kept { IfSome result.found (λ v. HasNotComeBack reader.new.pass.view key v
        other.new.pass.view (take result.back out.new)) }
    ensures few { result.back ≤ length out.new }
{
    let found = tree.get_pinned(reader, key);
    reader.know_run();
    let back = take_back(tree, other, out);
    tell_worker(tree, other, reader);
    reader.know_run();
    GotBeside {
        found: found_value(found),
        back,
    }
}

/// Gets the values of several keys like `get_while_collected`, and returns how many values came back.
/// Proved: of each key that was found, the leaf is not freed, and the value that was stored for it has
/// not come back. `None`: a walk had looked at as many nodes as there are. Then no answer means
/// anything, and no value was taken back.
pub fn get_many_while_collected(
    tree: &Tree,
    reader: &mut Worker,
    other: &mut Worker,
    queries: &mut [Query],
    out: &mut [u64],
) -> Option<usize>
    requires reader { IsOf tree.now reader.old.pass }
    requires other { IsOf tree.now other.old.pass }
    requires values { HasValues tree.now }
    requires pinned { IsSome reader.old.held }
    ensures pinned { IsSome reader.new.held }
    ensures kept { IfSome result (λ n. All (λ q. q.found ≡ true → HasNotComeBack reader.new.pass.view
        q.key q.value other.new.pass.view (take n out.new)) queries.new) }
    ensures few { IfSome result (λ n. n ≤ length out.new) }
{
    let Ok(()) = tree.get_many_pinned(reader, queries) else {
        return None;
    };
    reader.know_run();
    let back = take_back(tree, other, out);
    tell_worker(tree, other, reader);
    reader.know_run();
    Some(back)
}
