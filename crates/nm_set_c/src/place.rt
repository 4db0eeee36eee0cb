//! One word in the memory of C, which owns what it leads to.
ghost use Rattle.std.specs.Prelude.{◌≡◌, Option, Some, None, MatchOption};
ghost use Rattle.nm_set_c.specs.declared.owner.Owner.{Owner};
ghost use Rattle.nm_set_c.specs.Places.{owned_at, coded_owner};

use crate::owner::Owner;
use std::alloc::Global;
use std::marker::Model;
use std::ptr::null_mut;

/// One word, null while it is empty. Otherwise it owns a set, a worker or a report, in a box.
///
/// A drop of a full one frees nothing. So each function takes what it owns first, and gives it back
/// or drops that.
#[repr(C)]
#[derive(Drop)]
pub struct Place {
    at: *mut u8,
    alloc: Global,
    pub ghost held: { Option Owner } by { coded_owner },
}

impl Model for Place {
    ghost also_owns = { λ p. owned_at p.alloc p.at p.held };
}

impl Place {
    /// Makes a place that owns nothing.
    pub(crate) fn closed(alloc: Global) -> Place
        ensures { result.held ≡ None }
    {
        Place {
            at: null_mut(),
            alloc,
        }
    }

    /// Makes the place of what a box owns.
    pub(crate) fn of(owner: Box<Owner>) -> Place
        ensures { result.held ≡ Some owner.value }
    {
        let (at, alloc) = Box::into_raw_with_allocator(owner);
        Place {
            at: at as *mut u8,
            alloc,
        }
    }

    /// Returns what the place owns, in its box.
    fn into_box(self) -> Option<Box<Owner>>
        ensures { MatchOption result (self.held ≡ None) (λ b. self.held ≡ Some b.value) }
    {
        let Place { at, alloc } = self;
        if at.is_null() {
            return None;
        }
        // A word that is not null came from a box in `of`.
        Some(unsafe { Box::from_raw(alloc, at as *mut Owner) })
    }

    /// Takes what the place owns, and leaves it empty.
    pub(crate) fn take(&mut self, alloc: Global) -> Option<Box<Owner>>
        ensures taken { MatchOption result (self.old.held ≡ None)
            (λ b. self.old.held ≡ Some b.value) }
        ensures left { self.new.held ≡ None }
    {
        std::mem::replace(self, Place::closed(alloc)).into_box()
    }
}

// A thread of C may hand a handle to another one: a set, a worker and a report may all cross.
unsafe impl Send for Place {}

/// One word, as C declares it.
const _: () = prove!(std::mem::size_of::<Place>() == 8);
