//! Laws of each worker's part of a run: its private slots, and the ledgers that it holds.
ghost use Rattle.nm_order.specs.Hands.{HandsAreApart, HeldLedgersAreKept};
ghost use Rattle.nm_order.specs.Unpinned.{UnpinnedWorkersHaveNoCall};

/// Law: for every log, each private slot of the worker, and each slot that waits in a queue that it
/// holds, is one of 6 to nodes. No slot is both private and waiting, and none waits twice. Each
/// ledger that it holds is that of a worker. (What was cut is in one queue once; Fraser, section
/// 5.2.3.)
pub fn hands_are_apart()
    ensures { HandsAreApart }
{}

/// Law: for every log and each ledger that the worker holds, the retired nodes are the freed ones
/// and then the waiting ones, in this order. Entries without a label (retire epoch) wait in the
/// worker's own queue only. (The limbo lists of Fraser, section 5.2.3, as first-in first-out
/// queues.)
pub fn held_ledgers_are_kept()
    ensures { HeldLedgersAreKept }
{}

/// Law: for every log, a worker that is not pinned has no call, and no cut of it waits for a label.
/// (Fraser, section 5.2.3: a worker changes shared nodes only between its pin and its leave.)
pub fn unpinned_workers_have_no_call()
    ensures { UnpinnedWorkersHaveNoCall }
{}
