//! The blocks of a list, linked from each to the next.
ghost use Rattle.std.specs.Prelude.{◌≡◌, ◌+◌, ◌-◌, ◌*◌, ◌<◌, List, [], ◌∷◌, ◌++◌, Option, Some, None, length, take, drop, replicate, slice_set, slice_index_or};
ghost use denote.RawPtr.{Ptr};
ghost use Rattle.circular_buffer.specs.Places.{IsFilled};
ghost use Rattle.nm_limbo.specs.Blocks.{first_block_of, IsFirst, IsLast, IsEmptyAt};
ghost use Rattle.nm_limbo.specs.Ownership.{chain_owns, chain_lent};

use super::{BlockPtr, Deed, Room};
use std::alloc::Allocator;
use std::marker::{Model, PhantomData, Send, Sync};
use std::ptr;

/// The owner of the blocks of a list, and of the items in their places. It takes no space: the list
/// holds the pointers to the first block and to the last.
pub struct Chain<T, A: Allocator> {
    mark: PhantomData<*const (T, A)>,
    ghost blocks: { List Ptr },
    ghost slots: { List (Option T) },
    ghost alloc: { A },
}

impl<T, A: Allocator> Model for Chain<T, A> {
    ghost also_owns = { λ c. chain_owns T.row (A.dealloc_token c.alloc) c.blocks c.slots };

    ghost also_shares = { λ c _ κ. chain_lent T.row c.blocks c.slots κ };
}

unsafe impl<T: Send, A: Allocator + Send> Send for Chain<T, A> {}

// A `&` to it reaches only the items.
unsafe impl<T: Sync, A: Allocator> Sync for Chain<T, A> {}

impl<T, A: Allocator> Chain<T, A> {
    pub(crate) fn new(_alloc: &A) -> Chain<T, A>
        ensures { (result.blocks ≡ []) × (result.slots ≡ []) × (result.alloc ≡ _alloc.now) }
    {
        Chain { mark: PhantomData }
    }

    /// Ends a chain of no block. No other code can drop a chain, so no block is forgotten.
    pub(crate) fn destroy_empty(self)
        requires { self.blocks ≡ [] }
    {
        let Chain { mark: _ } = self;
    }

    /// Makes the block the only one, and returns its address.
    pub(crate) fn link_first(&mut self, room: Room<T>, deed: Deed<T, A>) -> BlockPtr<T>
        requires { (self.old.blocks ≡ []) × (deed.at ≡ room.ptr) × (deed.alloc ≡ self.old.alloc) }
        ensures { (result.ptr ≡ room.ptr) × (self.new.blocks ≡ room.ptr ∷ [])
            × (self.new.slots ≡ replicate 32 None) × (self.new.alloc ≡ self.old.alloc) }
    {
        let Room { ptr } = room;
        let Deed { mark: _ } = deed;
        unsafe {
            (*ptr).next = ptr::null_mut();
        }
        BlockPtr { ptr }
    }

    /// Links the block in after the last, and returns its address.
    pub(crate) fn link_last(
        &mut self,
        last: BlockPtr<T>,
        room: Room<T>,
        deed: Deed<T, A>,
    ) -> BlockPtr<T>
        requires { IsLast self.old.blocks last.ptr
            × (length self.old.slots ≡ 32 * length self.old.blocks) × (deed.at ≡ room.ptr)
            × (deed.alloc ≡ self.old.alloc) }
        ensures { (result.ptr ≡ room.ptr) × (self.new.blocks ≡ self.old.blocks ++ room.ptr ∷ [])
            × (self.new.slots ≡ self.old.slots ++ replicate 32 None)
            × (self.new.alloc ≡ self.old.alloc) }
    {
        let Room { ptr } = room;
        let Deed { mark: _ } = deed;
        let last = last.ptr;
        unsafe {
            (*ptr).next = ptr::null_mut();
            (*last).next = ptr;
        }
        BlockPtr { ptr }
    }

    /// Takes the first block out, and returns it with the address of the block that is then the
    /// first.
    pub(crate) fn unlink_first(&mut self, first: BlockPtr<T>) -> (Room<T>, Deed<T, A>, BlockPtr<T>)
        requires { IsFirst self.old.blocks first.ptr
            × (take 32 self.old.slots ≡ replicate 32 None) }
        ensures chain { (self.old.blocks ≡ first.ptr ∷ self.new.blocks)
            × (self.new.slots ≡ drop 32 self.old.slots) × (self.new.alloc ≡ self.old.alloc) }
        ensures taken { (result.1.at ≡ result.0.ptr) × (result.1.alloc ≡ self.old.alloc)
            × (result.2.ptr ≡ first_block_of self.new.blocks) }
    {
        let ptr = first.ptr;
        let next = unsafe { (*ptr).next };
        (
            Room { ptr },
            Deed { mark: PhantomData },
            BlockPtr { ptr: next },
        )
    }

    /// Fills the empty place at `index` of the last block.
    pub(crate) fn write(&mut self, last: BlockPtr<T>, index: usize, item: T)
        requires { IsLast self.old.blocks last.ptr × (index < 32)
            × IsEmptyAt self.old.slots (32 * (length self.old.blocks - 1) + index) }
        ensures { (self.new.blocks ≡ self.old.blocks)
            × (self.new.slots ≡ slice_set self.old.slots (32 * (length self.old.blocks - 1) + index)
            (Some item)) × (self.new.alloc ≡ self.old.alloc) }
    {
        unsafe {
            let places = (&raw mut (*last.ptr).places) as *mut T;
            places.add(index).write(item)
        }
    }

    /// Empties the place at `index` of the first block, and returns its item.
    pub(crate) fn read(&mut self, first: BlockPtr<T>, index: usize) -> T
        requires { IsFirst self.old.blocks first.ptr × (index < 32)
            × IsFilled self.old.slots index }
        ensures item { slice_index_or self.old.slots index None ≡ Some result }
        ensures chain { (self.new.blocks ≡ self.old.blocks)
            × (self.new.slots ≡ slice_set self.old.slots index None)
            × (self.new.alloc ≡ self.old.alloc) }
    {
        unsafe {
            let places = (&raw const (*first.ptr).places) as *const T;
            places.add(index).read()
        }
    }

    /// Returns the item in the place at `index` of the first block.
    pub(crate) fn get(&self, first: BlockPtr<T>, index: usize) -> &T
        requires { IsFirst self.now.blocks first.ptr × (index < 32)
            × IsFilled self.now.slots index }
        ensures { slice_index_or self.now.slots index None ≡ Some result.now }
    {
        unsafe {
            let places = (&raw const (*first.ptr).places) as *const T;
            &*places.add(index)
        }
    }
}
