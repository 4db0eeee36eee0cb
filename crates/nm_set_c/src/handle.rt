//! The two words of a handle, and the rule by which one call at a time has what the first one owns.
ghost use Rattle.std.specs.Prelude.{◌≡◌, ◌≢◌, None, Some, IfNone, IfSome, MatchOption};
ghost use Rattle.nm_set_c.specs.Handles.{held_by};
ghost use Rattle.nm_set_c.specs.Handles.Hold.{Closed};

use crate::owner::Owner;
use crate::place::Place;
use crate::word::swap;
use std::alloc::Global;

/// A handle for C: what it owns, and whether a call has it at this moment. Both words are zero
/// while it is closed.
///
/// The rule: a call takes what the first word owns only after its own exchange has found the second
/// word 0, of which it has evidence (`Entered`). It writes the first word only while the second one
/// is not 0. Each function here requires its part of that, and no other file can name these words. So
/// if two threads use one handle at once, the second finds it in use, and touches nothing.
#[repr(C)]
#[derive(Drop)]
pub struct Handle {
    place: Place,
    in_use: u64,
}

/// Evidence that this call's exchange has found a handle free. It is made there, and a take uses it
/// up.
pub(crate) struct Entered {
    seal: Seal,
}

/// Keeps an evidence whole, and does nothing else.
struct Seal {}

impl Entered {
    fn use_up(self) {
        let Entered { seal } = self;
        let Seal {} = seal;
    }
}

impl Handle {
    /// Makes a handle that owns nothing.
    pub(crate) fn closed(alloc: Global) -> Handle
        ensures { held_by result ≡ Closed }
    {
        Handle {
            place: Place::closed(alloc),
            in_use: 0,
        }
    }

    /// Marks the handle as one that a call has, by one atomic exchange. Returns `None` if another
    /// call has it.
    pub(crate) fn enter(&mut self) -> Option<Entered>
        ensures place { self.new.place ≡ self.old.place }
        ensures used { self.new.in_use ≡ 1 }
        ensures free { IfSome result (λ _. self.old.in_use ≡ 0) }
        ensures refused { IfNone result (self.old.in_use ≢ 0) }
    {
        if swap(&mut self.in_use, 1) != 0 {
            return None;
        }
        Some(Entered { seal: Seal {} })
    }

    /// Takes what the handle owns, for the call that has entered it.
    pub(crate) fn take(&mut self, entered: Entered, alloc: Global) -> Option<Box<Owner>>
        requires used { self.old.in_use ≢ 0 }
        ensures used { self.new.in_use ≡ self.old.in_use }
        ensures taken { MatchOption result (self.old.place.held ≡ None)
            (λ b. self.old.place.held ≡ Some b.value) }
        ensures left { self.new.place.held ≡ None }
    {
        entered.use_up();
        self.place.take(alloc)
    }

    /// Lets the handle own this, while a call has it.
    pub(crate) fn fill(&mut self, owner: Box<Owner>)
        requires used { self.old.in_use ≢ 0 }
        ensures used { self.new.in_use ≡ self.old.in_use }
        ensures held { self.new.place.held ≡ Some owner.value }
    {
        self.place = Place::of(owner);
    }

    /// Marks the handle as one that no call has, by one atomic exchange.
    pub(crate) fn leave(&mut self)
        requires used { self.old.in_use ≢ 0 }
        ensures place { self.new.place ≡ self.old.place }
        ensures used { self.new.in_use ≡ 0 }
    {
        swap(&mut self.in_use, 0);
    }
}

/// Two words, as C declares it.
const _: () = prove!(std::mem::size_of::<Handle>() == 16);
