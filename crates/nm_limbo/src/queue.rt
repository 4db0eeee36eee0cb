//! `BlockQueue`. A clause sees a queue as its `items`, and the numbers `spare` and `blocks`.
ghost use Rattle.std.specs.Prelude.{◌≡◌, ◌+◌, ◌-◌, ◌<◌, ◌≤◌, ◌==◌, [], ◌∷◌, ◌++◌, length, option_copied, slice_get, IfErr, MatchOption, OnOk};
ghost use Rattle.nm_limbo.specs.Queue.{block_queue, IsBalanced, IsGrown, HasLeast, IsPopped, blocks_beyond, shrunk};

use crate::block::{BLOCK_LEN, Receipt, allocate};
use crate::list::BlockList;
use std::alloc::{Allocator, Global};
use std::marker::Model;
use std_alloc::room::may_hold;
use thiserror::Error;

/// No memory for a block, or items that are too large for one: 32 of them would take 2 ^ 63 bytes
/// or more.
#[derive(Clone, Copy, Debug, Error, PartialEq, Eq)]
#[error("there is no memory for a block of the queue")]
pub struct NoMemory;

/// A queue of items in blocks of 32 places each.
///
/// The places of the blocks are, in order: those of the popped items of the front block, at most
/// 31; those of the items, from the front; and the spare ones. Only `reserve` takes memory, and an
/// item stays at its place until it is popped. A drop drops each item and frees each block. A queue
/// may cross threads if its items and its allocator may.
pub struct BlockQueue<T, A: Allocator = Global> {
    // The blocks from the front one to the last that holds or held an item, and then the empty
    // ones.
    used: BlockList<T, A>,
    empty: BlockList<T, A>,
    // The number of places of the front block whose items are popped.
    popped: u32,
    len: u32,
    alloc: A,
}

impl<T, A: Allocator> Model for BlockQueue<T, A> {
    ghost use Rattle.nm_limbo.specs.Queue.{BlockQueue, block_queue_code, block_queue_of, IsQueue};

    ghost Value = { BlockQueue T };

    ghost coded = { block_queue_code T.code };

    ghost view = { λ q. block_queue_of q.used q.empty q.popped q.len };

    ghost invariant = { λ q. IsQueue q.used q.empty q.popped q.len q.alloc };
}

impl<T, A: Allocator> BlockQueue<T, A> {
    /// Returns an empty queue with no block. It takes no memory: `reserve` takes it, from `alloc`.
    pub fn new(alloc: A) -> Self
        ensures { result ≡ block_queue [] 0 0 }
    {
        BlockQueue {
            used: BlockList::new(&alloc),
            empty: BlockList::new(&alloc),
            popped: 0,
            len: 0,
            alloc,
        }
    }

    /// Returns the number of items.
    pub fn len(&self) -> u32
        ensures len { result ≡ length self.now.items }
        ensures balanced { IsBalanced self.now }
    {
        self.len
    }

    /// Returns whether the queue has no item.
    pub fn is_empty(&self) -> bool
        ensures { result ≡ (length self.now.items == 0) }
    {
        self.len == 0
    }

    /// Returns the number of items that can be pushed before more is reserved.
    pub fn spare(&self) -> u32
        ensures spare { result ≡ self.now.spare }
        ensures balanced { IsBalanced self.now }
    {
        BLOCK_LEN * self.used.blocks() - (self.popped + self.len) + BLOCK_LEN * self.empty.blocks()
    }

    /// Returns the number of blocks, of 32 places each.
    pub fn blocks(&self) -> u32
        ensures blocks { result ≡ self.now.blocks }
        ensures balanced { IsBalanced self.now }
    {
        self.used.blocks() + self.empty.blocks()
    }

    /// Takes memory until `n` items, at most 1,024, can be pushed: the fewest blocks that are
    /// enough. The queue may have at most 536,870,912 items.
    ///
    /// # Errors
    ///
    /// `NoMemory` if a block is refused, and fewer than `n` items can be pushed. The blocks that it
    /// got before stay. In either case the items are unchanged.
    pub fn reserve(&mut self, n: u32) -> Result<(), NoMemory>
        requires { (n ≤ 1024) × (length self.old.items ≤ 536870912) }
        ensures grown { IsGrown self.old self.new }
        ensures balanced { IsBalanced self.new }
        ensures ok { OnOk result (HasLeast self.old self.new n) }
        ensures refused { IfErr result (λ _. self.new.spare < n) }
    {
        // Nearly always the empty blocks alone are enough.
        if self.empty.blocks() >= n.div_ceil(BLOCK_LEN) {
            return Ok(());
        }
        while self.spare() < n {
            self.add_block()?;
        }
        Ok(())
    }

    fn add_block(&mut self) -> Result<(), NoMemory>
        requires { (self.old.spare < 1024) × (length self.old.items ≤ 536870912) }
        ensures ok { OnOk result
            (self.new ≡ block_queue self.old.items (self.old.spare + 32) (self.old.blocks + 1)) }
        ensures refused { IfErr result (λ _. self.new ≡ self.old) }
    {
        if !may_hold::<T>(BLOCK_LEN as usize) {
            return Err(NoMemory);
        }
        let Ok((room, deed)) = allocate(&self.alloc) else {
            return Err(NoMemory);
        };
        self.empty.push_block(room, deed);
        Ok(())
    }

    /// Appends the item at a spare place. Takes no memory.
    pub fn push_reserved(&mut self, item: T)
        requires { 0 < self.old.spare }
        ensures queue { self.new
            ≡ block_queue (self.old.items ++ item ∷ []) (self.old.spare - 1) self.old.blocks }
        ensures balanced { IsBalanced self.new }
    {
        let filled = self.popped + self.len;
        if filled == BLOCK_LEN * self.used.blocks() {
            self.used.take_block(&mut self.empty);
        }
        let index = filled + BLOCK_LEN - BLOCK_LEN * self.used.blocks();
        self.used.write(index, item);
        self.len += 1;
    }

    /// Returns the item at the front, or `None` if there is none.
    pub fn front(&self) -> Option<&T>
        ensures { option_copied result ≡ slice_get self.now.items 0 }
    {
        if self.len == 0 {
            return None;
        }
        Some(self.used.get(self.popped))
    }

    /// Takes the item at the front out and returns it, or returns `None` if there is none. If the
    /// item had the last place of its block, the block goes to the end and its 32 places are spare
    /// again. No other place becomes spare.
    pub fn pop(&mut self) -> Option<T>
        ensures popped { MatchOption result ((self.old.items ≡ []) × (self.new ≡ self.old))
            (IsPopped self.old self.new) }
        ensures balanced { IsBalanced self.new }
    {
        if self.len == 0 {
            return None;
        }
        let item = self.used.read(self.popped);
        self.len -= 1;
        self.popped += 1;
        if self.popped == BLOCK_LEN {
            self.popped = 0;
            self.empty.take_block(&mut self.used);
        }
        Some(item)
    }

    /// Gives back the empty blocks that are not needed for `n` spare places: the fewest blocks that
    /// hold the items and `n` spare places are left. If fewer than `n` items can be pushed, no
    /// block is given back. The items are unchanged. Returns a receipt for the blocks that were
    /// given back.
    pub fn shrink_to(&mut self, n: u32) -> Receipt
        ensures queue { self.new ≡ shrunk n self.old }
        ensures balanced { IsBalanced self.new }
        ensures receipt { result.blocks ≡ blocks_beyond n self.old }
    {
        let beyond = self.spare().saturating_sub(n) / BLOCK_LEN;
        self.empty.free_first(beyond, &self.alloc)
    }

    /// Ends an empty queue: gives each of its blocks back, and returns a receipt for them.
    fn destroy_empty(self) -> Receipt
        requires { self.items ≡ [] }
        ensures { result.blocks ≡ self.blocks }
    {
        let BlockQueue {
            used,
            empty,
            popped: _,
            len: _,
            alloc,
        } = self;
        used.free(&alloc).with(empty.free(&alloc))
    }
}

impl<T: Drop, A: Allocator> Drop for BlockQueue<T, A> {
    fn drop(mut self) {
        while let Some(item) = self.pop() {
            drop(item);
        }
        self.destroy_empty();
    }
}
