//! Takes any worker that is not attached, for callers that name no number.
ghost use Rattle.std.specs.Prelude.{◌≡◌, ℕ, ◌∷◌, [], IfSome};
ghost use Rattle.nm_tree.specs.Workers.{AreNew};
ghost use Rattle.nm_set.specs.Seats.{IsAnyResident, MayReturn, seats_in};

use crate::home::Home;
use crate::seat::{SealedWorker, WayBack};

/// Looks at each seat once, in the order of the numbers, and takes the first worker that it finds
/// there.
pub(crate) fn take_any(home: &Home) -> Option<(SealedWorker, WayBack)>
    ensures taken { IfSome result (λ g. IsAnyResident home.now.tree home.now.fit g.0.worker) }
    ensures back { IfSome result (λ g. MayReturn (seats_in home.now) g.0.worker g.1) }
    ensures first { IfSome result
        (λ g. g.1.turn ≡ 0 → (k : ℕ) × AreNew home.now.tree k (g.0.worker ∷ [])) }
{
    let workers = u32::try_from(home.workers()).unwrap_or(u32::MAX);
    for number in 0..workers {
        if let Ok(found) = home.take(number) {
            return Some(found);
        }
    }
    None
}
