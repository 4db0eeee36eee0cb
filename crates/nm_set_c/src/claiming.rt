//! How one call at a time has a handle: it claims what the handle owns, and gives it back.
ghost use Rattle.std.specs.Prelude.{◌≡◌, ◌≢◌, None, IfOk, IfErr};
ghost use Rattle.nm_set_c.specs.Handles.{held_by, IsRefused, CannotOpen};
ghost use Rattle.nm_set_c.specs.Handles.Hold.{Closed, Open};

use crate::handle::Handle;
use crate::outcome::Outcome;
use crate::owner::Owner;
use std::alloc::Global;
use std::hint::spin_loop;

/// How often a call looks at a handle of a set that another call has, before it returns `InUse`.
/// That takes some tenths of a second, so that it waits for a thread that the system stops while it
/// takes a worker.
const LOOKS: u32 = 1 << 23;

impl Handle {
    /// Takes what the handle owns for one call, which gives it back by `put` or ends it by `shut`.
    /// Until then the handle is in use.
    ///
    /// Errors: `Closed`, `InUse`: the handle is unchanged.
    pub(crate) fn claim(&mut self, alloc: Global) -> Result<Box<Owner>, Outcome>
        ensures claimed { IfOk result (λ b. held_by self.old ≡ Open b.value) }
        ensures used { IfOk result (λ _. self.new.in_use ≢ 0) }
        ensures emptied { IfOk result (λ _. self.new.place.held ≡ None) }
        ensures refused { IfErr result (IsRefused (held_by self.old) (held_by self.new)) }
    {
        let Some(entered) = self.enter() else {
            return Err(Outcome::InUse);
        };
        match self.take(entered, alloc) {
            Some(owner) => Ok(owner),
            None => {
                self.leave();
                Err(Outcome::Closed)
            }
        }
    }

    /// Claims the handle, and looks again for a while if another call has it.
    pub(crate) fn claim_soon(&mut self, alloc: Global) -> Result<Box<Owner>, Outcome>
        ensures claimed { IfOk result (λ b. held_by self.old ≡ Open b.value) }
        ensures used { IfOk result (λ _. self.new.in_use ≢ 0) }
        ensures emptied { IfOk result (λ _. self.new.place.held ≡ None) }
        ensures refused { IfErr result (IsRefused (held_by self.old) (held_by self.new)) }
    {
        for _ in 1..LOOKS {
            match self.claim(alloc) {
                Err(Outcome::InUse) => spin_loop(),
                told => return told,
            }
        }
        self.claim(alloc)
    }

    /// Takes a closed handle for a call that opens it by `put`, or leaves it closed by `shut`.
    ///
    /// Errors: `Open`, `InUse`: the handle is unchanged.
    pub(crate) fn reserve(&mut self, alloc: Global) -> Result<(), Outcome>
        ensures reserved { IfOk result (λ _. held_by self.old ≡ Closed) }
        ensures used { IfOk result (λ _. self.new.in_use ≢ 0) }
        ensures emptied { IfOk result (λ _. self.new.place.held ≡ None) }
        ensures refused { IfErr result (CannotOpen (held_by self.old) (held_by self.new)) }
    {
        let Some(entered) = self.enter() else {
            return Err(Outcome::InUse);
        };
        match self.take(entered, alloc) {
            Some(owner) => {
                self.put(owner);
                Err(Outcome::Open)
            }
            None => Ok(()),
        }
    }

    /// Ends a call that has the handle, which owns this from then on.
    pub(crate) fn put(&mut self, owner: Box<Owner>)
        requires used { self.old.in_use ≢ 0 }
        ensures { held_by self.new ≡ Open owner.value }
    {
        self.fill(owner);
        self.leave();
    }

    /// Ends a call that has the handle, which is closed from then on.
    pub(crate) fn shut(&mut self)
        requires used { self.old.in_use ≢ 0 }
        requires emptied { self.old.place.held ≡ None }
        ensures { held_by self.new ≡ Closed }
    {
        self.leave();
    }
}

/// Makes a call on a worker or a report, by its handle, as exports do: it claims what the handle
/// owns, makes the call, gives it back, and has the outcome's number. It returns from the export if
/// the claim is refused, if the handle owns something else (`Kind`), and if the number that is
/// named after the kind is no key (`Key`).
macro_rules! by_handle {
    ($alloc:ident, $handle:ident, $kind:ident($owned:ident) $(, $key:ident)? => $call:expr) => {{
        let mut owner = match $handle.claim($alloc) {
            Ok(owner) => owner,
            Err(told) => return told.code(),
        };
        let $crate::owner::Owner::$kind($owned) = &mut *owner else {
            $handle.put(owner);
            return $crate::outcome::Outcome::Kind.code();
        };
        $(
            let Some($key) = nm_edge::Key::new($key) else {
                $handle.put(owner);
                return $crate::outcome::Outcome::Key.code();
            };
        )?
        let outcome = $call;
        $handle.put(owner);
        outcome.code()
    }};
}

pub(crate) use by_handle;
