//! A block of raw memory, and the values that represent who owns which part of it. Only this module
//! and the chain take these values apart: other code can only pass them on.
ghost use Rattle.std.specs.Prelude.{◌≡◌, ◌+◌, ◌*◌, ◌^◌, ◌<◌, IfOk, ⊤};
ghost use Rattle.std.specs.Mem.{type_size};
ghost use denote.RawPtr.{Ptr, null_ptr};
ghost use Rattle.nm_limbo.specs.Ownership.{room_owns, deed_owns};

pub(crate) mod chain;

use std::alloc::{AllocError, Allocator};
use std::marker::{Model, PhantomData, Send, Sync};
use std::mem::{align_of, size_of};
use std::ptr;

/// The number of items that a block has room for.
pub(crate) const BLOCK_LEN: u32 = 32;

/// The layout of a block in memory: the link to the next block, and a place for each item. No value
/// of this type is made.
pub struct Block<T> {
    next: *mut Block<T>,
    places: [T; BLOCK_LEN as usize],
}

/// The address of a block. It owns nothing.
pub struct BlockPtr<T> {
    ptr: *mut Block<T>,
}

impl<T> Clone for BlockPtr<T> {
    ghost is_clone = { λ x y. y ≡ x };

    ghost is_infallible = { λ _. ⊤ };

    fn clone(&self) -> Result<BlockPtr<T>, AllocError> {
        Ok(*self)
    }
}

impl<T> Copy for BlockPtr<T> {}

impl<T> BlockPtr<T> {
    /// Returns the address of no block.
    pub(crate) fn null() -> BlockPtr<T>
        ensures { result.ptr ≡ null_ptr }
    {
        BlockPtr {
            ptr: ptr::null_mut(),
        }
    }
}

unsafe impl<T> Send for BlockPtr<T> {}

unsafe impl<T> Sync for BlockPtr<T> {}

/// The memory of a block that is in no list and holds no item.
pub(crate) struct Room<T> {
    ptr: *mut Block<T>,
}

impl<T> Model for Room<T> {
    ghost also_owns = { λ r. room_owns T.row r.ptr };
}

/// The right to give the block at `at` back to `alloc`. It takes no space.
pub(crate) struct Deed<T, A: Allocator> {
    mark: PhantomData<*const (T, A)>,
    ghost at: { Ptr },
    ghost alloc: { A },
}

impl<T, A: Allocator> Model for Deed<T, A> {
    ghost also_owns = { λ d. deed_owns T.row (A.dealloc_token d.alloc) d.at };
}

/// Allocates a block; returns its memory and the right to give it back.
///
/// Errors: out of memory.
pub(crate) fn allocate<T, A: Allocator>(alloc: &A) -> Result<(Room<T>, Deed<T, A>), AllocError>
    requires { 32 * type_size T.row < 2 ^ 63 }
    ensures { IfOk result (λ r. (r.1.at ≡ r.0.ptr) × (r.1.alloc ≡ alloc.now)) }
{
    match alloc.allocate(size_of::<Block<T>>(), align_of::<Block<T>>()) {
        Ok(memory) => {
            let ptr = memory as *mut Block<T>;
            Ok((Room { ptr }, Deed { mark: PhantomData }))
        }
        Err(error) => Err(error),
    }
}

/// Gives the block back to `alloc`.
fn deallocate<T, A: Allocator>(alloc: &A, room: Room<T>, deed: Deed<T, A>)
    requires { (deed.at ≡ room.ptr) × (deed.alloc ≡ alloc.now) }
{
    let Room { ptr } = room;
    let Deed { mark: _ } = deed;
    unsafe {
        alloc.deallocate(
            ptr as *mut u8,
            size_of::<Block<T>>(),
            align_of::<Block<T>>(),
        );
    }
}

/// A receipt for blocks that were given back, with their number. Only this module writes it, when
/// it gives a block back.
#[derive(Drop)]
pub struct Receipt {
    blocks: u32,
}

impl Receipt {
    /// Returns a receipt for no block.
    pub(crate) fn new() -> Receipt
        ensures { result.blocks ≡ 0 }
    {
        Receipt { blocks: 0 }
    }

    /// Gives a block back to `alloc`, and returns a receipt for one more.
    pub(crate) fn and<T, A: Allocator>(self, alloc: &A, room: Room<T>, deed: Deed<T, A>) -> Receipt
        requires { (deed.at ≡ room.ptr) × (deed.alloc ≡ alloc.now)
            × (self.blocks + 1 < 2 ^ 32) }
        ensures { result.blocks ≡ self.blocks + 1 }
    {
        deallocate(alloc, room, deed);
        Receipt {
            blocks: self.blocks + 1,
        }
    }

    /// Returns one receipt in place of two, for the blocks of both.
    pub(crate) fn with(self, other: Receipt) -> Receipt
        requires { self.blocks + other.blocks < 2 ^ 32 }
        ensures { result.blocks ≡ self.blocks + other.blocks }
    {
        Receipt {
            blocks: self.blocks + other.blocks,
        }
    }

    /// Returns the number of blocks that were given back.
    pub fn blocks(&self) -> u32
        ensures { result ≡ self.now.blocks }
    {
        self.blocks
    }
}
