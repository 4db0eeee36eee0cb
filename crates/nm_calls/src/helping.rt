//! Help for other deletes, and the room that each try needs.
ghost use Rattle.std.specs.Prelude.{◌≡◌, ◌<◌, ◌≤◌, true, false, length};
ghost use Rattle.nm_walks.specs.Bounds.{chain_bound, cut_bound};
ghost use Rattle.nm_walks.specs.Rooms.{FillsUp, TakesRoom};
ghost use Rattle.nm_walks.specs.Telling.{Tells, GoesOn, IsPinnedIn};
ghost use Rattle.nm_walks.specs.Walks.{IsAt};
ghost use Rattle.nm_walks.specs.Cleanups.{OnlyCleans, HoldsCuts};
ghost use Rattle.nm_calls.specs.Inserts.{Helps, asks_help};

use nm_edge::Edge;
use nm_epoch::{Entry, HeldQueue};
use nm_limbo::BlockQueue;
use nm_steps::{Pass, Shared};
use nm_walks::{CUT_BOUND, WalkEnd, Workspace, cleanup, is_marked};

/// Returns whether the edge that was found leads to the leaf at which the walk ended, and is
/// marked.
fn asks_help(end: &WalkEnd, found: Edge) -> bool
    ensures { result ≡ asks_help end.now found }
{
    found.slot() == end.seek_record.edge.slot() && is_marked(found)
}

/// Cleans up with this walk, if the edge that a lost exchange found leads to the same leaf and is
/// marked.
#[inline(always)]
pub fn help(
    shared: &Shared,
    pass: &mut Pass,
    workspace: &mut Workspace,
    held: &mut HeldQueue,
    end: &WalkEnd,
    found: Edge,
)
    requires pinned { IsPinnedIn shared.now pass.old }
    requires at { IsAt (Tells pass.old) end.now.seek_record workspace.old.chain.items }
    requires few { length workspace.old.chain.items < chain_bound }
    requires room { cut_bound ≤ held.old.queue.spare }
    requires kept { HoldsCuts pass.old held.old }
    ensures part { Helps end.now workspace.old.chain.items found pass.old.view.log
        pass.new.view.log }
    ensures chain { workspace.new.chain ≡ workspace.old.chain }
    ensures on { GoesOn pass.old pass.new }
    ensures only { OnlyCleans pass.old pass.new }
    ensures kept { HoldsCuts pass.new held.new }
    ensures fills { FillsUp held.old.queue held.new.queue }
    ensures fit { workspace.new.placement ≡ workspace.old.placement }
{
    if asks_help(end, found) {
        let _ = cleanup(shared, pass, workspace, held, &end.seek_record);
    }
}

/// Makes room for what a cleanup cuts off, with as few new blocks as possible. Returns false if the
/// allocation failed; there is then less room than a cleanup needs.
pub fn make_room(queue: &mut BlockQueue<Entry>) -> bool
    requires few { length queue.old.items ≤ 536870912 }
    ensures items { queue.new.items ≡ queue.old.items }
    ensures room { result ≡ true → cut_bound ≤ queue.new.spare }
    ensures refused { result ≡ false → queue.new.spare < cut_bound }
    ensures more { queue.old.spare ≤ queue.new.spare }
    ensures blocks { TakesRoom queue.old queue.new }
{
    queue.reserve(CUT_BOUND as u32).is_ok()
}

/// Makes such room for the try of a round, except the first one, for which it was made before the
/// pin.
pub fn make_room_for(queue: &mut BlockQueue<Entry>, round: u32) -> bool
    requires few { length queue.old.items ≤ 536870912 }
    requires first { round ≡ 0 → cut_bound ≤ queue.old.spare }
    ensures items { queue.new.items ≡ queue.old.items }
    ensures room { result ≡ true → cut_bound ≤ queue.new.spare }
    ensures refused { result ≡ false → queue.new.spare < cut_bound }
    ensures more { queue.old.spare ≤ queue.new.spare }
    ensures blocks { TakesRoom queue.old queue.new }
{
    round == 0 || make_room(queue)
}
