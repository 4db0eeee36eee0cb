//! Inserts, deletes, and the completion of a pending delete.
ghost use Rattle.std.specs.Prelude.{◌≡◌, false, true, Ok, Some};
ghost use Rattle.nm_steps.specs.Steps.{IsOf};
ghost use Rattle.nm_steps.specs.Values.{HasValues};
ghost use Rattle.nm_calls.specs.Maps.{HasPut, HasTaken, MapGave};
ghost use Rattle.nm_tree.specs.Calls.{MayCall, LeavesInsert, SaysInsert, LeavesDelete, SaysDelete, LeavesFinish, SaysFinish};
ghost use Rattle.nm_tree.specs.Answers.{IfTaken};

use crate::tree::Tree;
use crate::worker::{Standing, Worker};
use nm_calls::{CallFault, Deletion, Unfinished, delete, finish, insert};
use nm_edge::Key;

impl Tree {
    /// Inserts `key`; returns true if it was absent. In a tree with values the value is 0. Proved
    /// (`puts`): if the result is `Ok(true)`, the map had the key with 0 at a moment of the call.
    ///
    /// Each try is a walk that ends with the answer, or a link of two new nodes. If the link is
    /// lost, the try helps with at most one cleanup. Before each try the call makes room for 128
    /// entries in the worker's own queue, with as few new blocks as possible; for the first try it
    /// does so before the pin. It takes no other memory. The caller must not have pinned the
    /// worker.
    ///
    /// Errors: `Pending`: a key is pending. `Busy`, `Full`, `NoMemory`: see `CallFault`. Proved
    /// (`says`): after `Full` its last claims found no slot, and after `NoMemory` the worker's own queue
    /// has less room than a try needs. Proved (`alone`): a call that has at least one try is not `Busy`
    /// if no other worker has a delete pending before it or makes a transition during it.
    ///
    /// Cost: at most `tries` * (4 `reach` + 512) + 6 `nodes` + 10 steps. A walk's reach is 66 nodes
    /// in a radix tree, and the number of nodes otherwise. (The insert of Natarajan and Mittal,
    /// section 3.2.)
    #[inline(always)]
    pub fn insert(&self, worker: &mut Worker, key: Key, tries: u32) -> Result<bool, CallFault>
        requires { MayCall self.now worker.old }
        ensures says { SaysInsert self.now.layout tries key worker.old worker.new result }
        ensures leaves { LeavesInsert self.now.layout tries key worker.old worker.new result }
        ensures puts { HasValues self.now → result ≡ Ok true
            → HasPut worker.old.pass worker.new.pass key 0 }
    {
        let mut found = 0;
        self.insert_with_value(worker, key, 0, &mut found, tries)
    }

    /// Inserts `key` with `value`; returns true if the key was absent. Otherwise the key keeps its
    /// value, and the call writes this value to `found`. In a tree without values it is `insert`, and
    /// `value` is not used. Proved (`puts`): if the result is `Ok(true)`, the map had the key with the
    /// value at a moment of the call. Proved (`finds`): if the result is `Ok(false)`, the map had the
    /// key with the value in `found` at a moment (linearization point) of the call. If the result is
    /// another one, or the tree has no values, `found` may be anything.
    ///
    /// Errors and cost are those of `insert`. (The insert of Natarajan and Mittal, section 3.2.)
    #[inline(always)]
    pub fn insert_with_value(
        &self,
        worker: &mut Worker,
        key: Key,
        value: u64,
        found: &mut u64,
        tries: u32,
    ) -> Result<bool, CallFault>
        requires { MayCall self.now worker.old }
        ensures says { SaysInsert self.now.layout tries key worker.old worker.new result }
        ensures leaves { LeavesInsert self.now.layout tries key worker.old worker.new result }
        ensures puts { HasValues self.now → result ≡ Ok true
            → HasPut worker.old.pass worker.new.pass key value }
        ensures finds { HasValues self.now → result ≡ Ok false
            → MapGave worker.old.pass worker.new.pass key (Some found.new) }
    {
        if let Standing::Pending(_) = worker.standing {
            return Err(CallFault::Pending);
        }
        let own = &mut worker.queues[worker.home];
        worker.pass.know_run();
        let answer = insert(
            &self.shared,
            &mut worker.pass,
            &mut worker.workspace,
            own,
            key,
            value,
            tries,
        );
        *found = worker.workspace.found;
        worker.pass.know_run();
        answer
    }

    /// Deletes `key`; returns true if it was present. The leaf with the key is then known to be cut
    /// off.
    ///
    /// A try to flag ends with the answer that the key is absent, or with a flag that is won or
    /// lost. If the flag is lost, the try helps with at most one cleanup. After the flag each
    /// cleanup is one try, so a call that returns true takes at least two tries. Before each try
    /// the call makes room for 128 entries in the worker's own queue, with as few new blocks as
    /// possible; for the first try it does so before the pin. It takes no other memory. The caller
    /// must not have pinned the worker.
    ///
    /// Errors: `Unfinished`: the leaf is flagged, but all tries were made or the room of one was
    /// refused. The key is then pending, and `finish` goes on. `Pending`, `Busy`, `NoMemory`: see
    /// `CallFault`. Proved (`alone`), if no other worker has a delete pending before the call or
    /// makes a transition during it: a call that has at least one try is not `Busy`, and one that
    /// has at least two is `Unfinished` only if the room of a try was refused.
    ///
    /// Cost: at most `tries` * (4 `reach` + 512) + 10 steps. A walk's reach is 66 nodes in a radix
    /// tree, and the number of nodes otherwise. (The delete of Natarajan and Mittal, section 3.2.)
    pub fn delete(&self, worker: &mut Worker, key: Key, tries: u32) -> Result<bool, CallFault>
        requires { MayCall self.now worker.old }
        ensures says { SaysDelete self.now.layout tries key worker.old worker.new result }
        ensures leaves { LeavesDelete self.now.layout tries key worker.old worker.new result }
    {
        let mut value = 0;
        self.delete_with_value(worker, key, &mut value, tries)
    }

    /// Deletes `key` as `delete` does. In a tree with values it writes the value that the key had to
    /// `taken`, if it returns true or `Unfinished`. Proved (`takes`): this call has then flagged a
    /// leaf, and right before that the map had the key with the value in this very leaf. So it is the
    /// value of this delete in each history of the map (`taken_values_are_of_their_acts` of
    /// `nm_calls`). It comes back by `collect_values` too, once nobody can read it.
    ///
    /// Errors and cost are those of `delete`. (The delete of Natarajan and Mittal, section 3.2.)
    pub fn delete_with_value(
        &self,
        worker: &mut Worker,
        key: Key,
        taken: &mut u64,
        tries: u32,
    ) -> Result<bool, CallFault>
        requires { MayCall self.now worker.old }
        ensures says { SaysDelete self.now.layout tries key worker.old worker.new result }
        ensures leaves { LeavesDelete self.now.layout tries key worker.old worker.new result }
        ensures takes { HasValues self.now → IfTaken result
            (HasTaken worker.old.pass worker.new.pass key taken.new) }
    {
        if let Standing::Pending(_) = worker.standing {
            return Err(CallFault::Pending);
        }
        let own = &mut worker.queues[worker.home];
        worker.pass.know_run();
        match delete(
            &self.shared,
            &mut worker.pass,
            &mut worker.workspace,
            own,
            key,
            taken,
            tries,
        ) {
            Ok(Deletion::Done(answer)) => Ok(answer),
            Ok(Deletion::Pending(leaf)) => {
                worker.pass.know_run();
                worker.standing = Standing::Pending(Unfinished { key, leaf });
                Err(CallFault::Unfinished)
            }
            Err(fault) => {
                worker.pass.know_run();
                Err(fault)
            }
        }
    }

    /// Goes on with the pending delete; returns true once its leaf is cut off. Returns false, with
    /// no step, if no delete is pending.
    ///
    /// Each try walks first, and then cleans up. Before each try the call makes room for 128
    /// entries in the worker's own queue, with as few new blocks as possible. It takes no other
    /// memory.
    ///
    /// Errors: `Unfinished`: all tries were made, or the room of one was refused. The key is still
    /// pending. Proved (`alone`): a call that has at least one try is `Unfinished` only if its room
    /// was refused, if no other worker makes a transition during it. Other workers may have deletes
    /// pending.
    ///
    /// Cost: at most `tries` * (4 `reach` + 512) + 10 steps, as for `delete`. (The cleanup mode of
    /// Natarajan and Mittal's delete, section 3.2.)
    #[inline(always)]
    pub fn finish(&self, worker: &mut Worker, tries: u32) -> Result<bool, CallFault>
        requires own { IsOf self.now worker.old.pass }
        ensures says { SaysFinish self.now.layout tries worker.old worker.new result }
        ensures leaves { LeavesFinish self.now.layout tries worker.old worker.new result }
    {
        if let Standing::Pending(_) = worker.standing {
            return self.finish_pending(worker, tries);
        }
        Ok(false)
    }

    /// Does the work of `finish`. It is a function of its own because in most calls nothing is
    /// pending.
    #[cold]
    #[inline(never)]
    fn finish_pending(&self, worker: &mut Worker, tries: u32) -> Result<bool, CallFault>
        requires own { IsOf self.now worker.old.pass }
        ensures says { SaysFinish self.now.layout tries worker.old worker.new result }
        ensures leaves { LeavesFinish self.now.layout tries worker.old worker.new result }
    {
        let Standing::Pending(pending) = worker.standing else {
            return Ok(false);
        };
        let own = &mut worker.queues[worker.home];
        worker.pass.know_run();
        if !finish(
            &self.shared,
            &mut worker.pass,
            &mut worker.workspace,
            own,
            &pending,
            tries,
        ) {
            worker.pass.know_run();
            return Err(CallFault::Unfinished);
        }
        worker.standing = Standing::Resting;
        Ok(true)
    }
}
