//! Laws of each worker's part of a run: the epochs that it reads, and its pin.
ghost use Rattle.nm_order.specs.Pinned.{PinsAreTold};
ghost use Rattle.nm_order.specs.Reads.{EpochsAreReadInOrder};

/// Law: for every log, the epoch that the worker has read last is the greatest that it has read, by
/// sights (epoch reads) and by advances. (The epoch only grows; Fraser, section 5.2.3.)
pub fn epochs_are_read_in_order()
    ensures { EpochsAreReadInOrder }
{}

/// Law: in every run, even of a plain core, a worker is pinned at an epoch exactly if its own log
/// shows it. The last sight that was answered `pinned`, with or without a call, is at that epoch,
/// and no leave came after it, with or without an answer. (Fraser's critical region, section
/// 5.2.3.)
pub fn pins_are_told()
    ensures { PinsAreTold }
{}
