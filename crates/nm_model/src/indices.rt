//! The indices of each slot's entries in a list, which find an entry without a search of the whole
//! list.
ghost use Rattle.std.specs.Prelude.{◌≡◌, length, OnOk, OnErr};
ghost use Rattle.nm_model.specs.Maps.{get, put};
ghost use Rattle.nm_model.specs.Indexing.{Covers, is_at_least, with_index};

use crate::ledger::Queued;
use crate::slot_map::SlotMap;
use std::alloc::AllocError;

/// The indices of the entries of one slot.
#[derive(Clone, Copy, Debug, PartialEq, Eq)]
pub struct Indices {
    /// The index of the last entry.
    pub last: usize,
    /// An upper bound for the indices of all other entries; `None` if there is no other.
    pub earlier: Option<usize>,
}

impl Indices {
    // Returns the indices with one more entry, after the others.
    fn with(known: Option<Indices>, index: usize) -> Indices
        ensures { result ≡ with_index known index }
    {
        match known {
            Some(known) => Indices {
                last: index,
                earlier: Some(known.last.max(known.earlier.unwrap_or(0))),
            },
            None => Indices {
                last: index,
                earlier: None,
            },
        }
    }

    /// Returns whether an entry other than the last may be at this index or after it.
    pub fn has_others_from(self, index: usize) -> bool
        ensures { result ≡ is_at_least self.earlier index }
    {
        self.earlier.is_some_and(|earlier| earlier >= index)
    }
}

// Records that a slot has an entry at this index, after its others.
fn put_index(indices: &mut SlotMap<Indices>, slot: u32, index: usize) -> Result<(), AllocError>
    ensures ok { OnOk result (indices.new
        ≡ put indices.old slot (with_index (get indices.old slot) index)) }
    ensures err { OnErr result (indices.new ≡ indices.old) }
{
    let known = indices.get(slot);
    indices.put(slot, Indices::with(known, index))
}

/// Records the entries from an index on. Those before it are recorded already.
pub fn index_from(
    indices: &mut SlotMap<Indices>,
    entries: &[Queued],
    from: usize,
) -> Result<(), AllocError>
    requires { Covers indices.old entries.now from }
    ensures ok { OnOk result (Covers indices.new entries.now (length entries.now)) }
    ensures err { OnErr result (Covers indices.new entries.now from) }
{
    for index in from..entries.len() {
        put_index(indices, entries[index].node.slot, index)?;
    }
    Ok(())
}
