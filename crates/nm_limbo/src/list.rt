//! A list of blocks with its two ends. A clause sees it as its places, the number of its blocks and
//! its allocator.
ghost use Rattle.std.specs.Prelude.{◌≡◌, ◌+◌, ◌-◌, ◌*◌, ◌^◌, ◌<◌, ◌≤◌, [], ◌++◌, Some, None, length, take, drop, replicate, slice_set, slice_index_or};
ghost use Rattle.circular_buffer.specs.Places.{IsFilled};
ghost use Rattle.nm_limbo.specs.Blocks.{IsEmptyAt};
ghost use Rattle.nm_limbo.specs.List.{block_list, IsDeedTo};

use crate::block::chain::Chain;
use crate::block::{BlockPtr, Deed, Receipt, Room};
use std::alloc::Allocator;
use std::marker::Model;

pub struct BlockList<T, A: Allocator> {
    chain: Chain<T, A>,
    first: BlockPtr<T>,
    last: BlockPtr<T>,
    count: u32,
}

impl<T, A: Allocator> Model for BlockList<T, A> {
    ghost use Rattle.nm_limbo.specs.List.{BlockList, block_list, block_list_code, IsLinked};

    ghost Value = { BlockList T A };

    ghost coded = { block_list_code T.code A.code };

    ghost view = { λ l. block_list l.chain.slots l.count l.chain.alloc };

    ghost invariant = { λ l. IsLinked l.chain.blocks l.chain.slots l.first.ptr l.last.ptr l.count };
}

impl<T, A: Allocator> BlockList<T, A> {
    pub(crate) fn new(alloc: &A) -> BlockList<T, A>
        ensures { result ≡ block_list [] 0 alloc.now }
    {
        BlockList {
            chain: Chain::new(alloc),
            first: BlockPtr::null(),
            last: BlockPtr::null(),
            count: 0,
        }
    }

    pub(crate) fn blocks(&self) -> u32
        ensures blocks { result ≡ self.now.blocks }
        ensures places { length self.now.slots ≡ 32 * self.now.blocks }
    {
        self.count
    }

    /// Links the block in after the last.
    pub(crate) fn push_block(&mut self, room: Room<T>, deed: Deed<T, A>)
        requires { IsDeedTo deed.at deed.alloc room.ptr self.old.alloc
            × (self.old.blocks < 2 ^ 31) }
        ensures { self.new ≡ block_list (self.old.slots ++ replicate 32 None) (self.old.blocks + 1)
            self.old.alloc }
    {
        self.last = if self.count == 0 {
            let last = self.chain.link_first(room, deed);
            self.first = last;
            last
        } else {
            self.chain.link_last(self.last, room, deed)
        };
        self.count += 1;
    }

    /// Takes the first block out, and returns it with its deed.
    pub(crate) fn pop_block(&mut self) -> (Room<T>, Deed<T, A>)
        requires { (0 < self.old.blocks) × (take 32 self.old.slots ≡ replicate 32 None) }
        ensures list { self.new
            ≡ block_list (drop 32 self.old.slots) (self.old.blocks - 1) self.old.alloc }
        ensures deed { IsDeedTo result.1.at result.1.alloc result.0.ptr self.old.alloc }
    {
        let (room, deed, next) = self.chain.unlink_first(self.first);
        self.first = next;
        self.count -= 1;
        (room, deed)
    }

    /// Moves the first block of `from`, which holds no item, to the end of this list.
    pub(crate) fn take_block(&mut self, from: &mut BlockList<T, A>)
        requires { (0 < from.old.blocks) × (take 32 from.old.slots ≡ replicate 32 None)
            × (self.old.alloc ≡ from.old.alloc) × (self.old.blocks < 2 ^ 31) }
        ensures from { from.new
            ≡ block_list (drop 32 from.old.slots) (from.old.blocks - 1) from.old.alloc }
        ensures list { self.new
            ≡ block_list (self.old.slots ++ replicate 32 None) (self.old.blocks + 1)
            self.old.alloc }
    {
        let (room, deed) = from.pop_block();
        self.push_block(room, deed);
    }

    /// Fills the place at `index` of the last block.
    pub(crate) fn write(&mut self, index: u32, item: T)
        requires { (0 < self.old.blocks) × (index < 32)
            × IsEmptyAt self.old.slots (32 * (self.old.blocks - 1) + index) }
        ensures { self.new ≡ block_list
            (slice_set self.old.slots (32 * (self.old.blocks - 1) + index) (Some item))
            self.old.blocks self.old.alloc }
    {
        self.chain.write(self.last, index as usize, item);
    }

    /// Empties the place at `index` of the first block, and returns its item.
    pub(crate) fn read(&mut self, index: u32) -> T
        requires { (index < 32) × IsFilled self.old.slots index }
        ensures item { slice_index_or self.old.slots index None ≡ Some result }
        ensures list { self.new
            ≡ block_list (slice_set self.old.slots index None) self.old.blocks self.old.alloc }
    {
        self.chain.read(self.first, index as usize)
    }

    /// Returns the item in the place at `index` of the first block.
    pub(crate) fn get(&self, index: u32) -> &T
        requires { (index < 32) × IsFilled self.now.slots index }
        ensures { slice_index_or self.now.slots index None ≡ Some result.now }
    {
        self.chain.get(self.first, index as usize)
    }

    /// Gives the first `n` blocks of an empty list back to `alloc`, and returns a receipt for them.
    pub(crate) fn free_first(&mut self, n: u32, alloc: &A) -> Receipt
        requires { (n ≤ self.old.blocks) × (self.old.alloc ≡ alloc.now)
            × (self.old.slots ≡ replicate (length self.old.slots) None) }
        ensures list { self.new ≡ block_list (replicate (32 * (self.old.blocks - n)) None)
            (self.old.blocks - n) self.old.alloc }
        ensures receipt { result.blocks ≡ n }
    {
        let mut receipt = Receipt::new();
        let left = self.blocks() - n;
        while self.blocks() > left {
            let (room, deed) = self.pop_block();
            receipt = receipt.and(alloc, room, deed);
        }
        receipt
    }

    /// Gives each block of an empty list back to `alloc`, and returns a receipt for them.
    pub(crate) fn free(mut self, alloc: &A) -> Receipt
        requires { (self.alloc ≡ alloc.now) × (self.slots ≡ replicate (length self.slots) None) }
        ensures { result.blocks ≡ self.blocks }
    {
        let receipt = self.free_first(self.blocks(), alloc);
        let BlockList {
            chain,
            first: _,
            last: _,
            count: _,
        } = self;
        chain.destroy_empty();
        receipt
    }
}
