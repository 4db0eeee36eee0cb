//! Pins the epoch. `pin` and `pin_for` are `pin_by` for the two purposes that a pin may have; the
//! loop is in `pin_by` alone.
ghost use Rattle.std.specs.Prelude.{◌≡◌, ◌+◌, ◌*◌, ◌≤◌, length, Some, None, IfOk, IfErr};
ghost use Rattle.nm_model.specs.declared.event.Event.TheVariants.{Sight, SightFor};
ghost use Rattle.nm_order.specs.Intervals.{HasKey};
ghost use Rattle.nm_steps.specs.Steps.{IsOf, MayStep, pin_reply, Continues, TakesStep};
ghost use Rattle.nm_epoch.specs.Resting.{IsResting, IsUnpinned, IsPinnedAt, IsTrying, HasAnnounced, KeepsHands, epochs};
ghost use Rattle.nm_epoch.specs.Tries.{IsPinnedBy, IsMoved, LostTry, WonTry, confirming, call_confirmed};

use crate::answers::Moved;
use nm_edge::Key;
use nm_model::Op;
use nm_steps::{Pass, Shared, Sighted};

/// The purpose of a pin.
#[derive(Clone, Copy)]
enum Confirming {
    Plain,
    For(Op, Key),
}

/// Reads the epoch again, to confirm a pin. `Ok`: it is still the announced one, and the worker is
/// pinned at it. `Err`: the epoch that was found instead.
fn confirm(shared: &Shared, pass: &mut Pass, announced: u64, by: &Confirming) -> Result<u64, u64>
    requires own { IsOf shared.now pass.old }
    requires may { MayStep pass.old (confirming by.now) }
    requires announced { HasAnnounced announced pass.old }
    ensures took { TakesStep pass.old pass.new (confirming by.now) (pin_reply result) }
    ensures same { IfOk result (λ e. e ≡ announced) }
{
    match by {
        Confirming::Plain => match shared.sight(pass) {
            Sighted::Pinned(epoch) => Ok(epoch),
            Sighted::Missed(epoch) => Err(epoch),
            Sighted::Saw(_) | Sighted::Labelled(_) => unreachable!(),
        },
        Confirming::For(op, key) => shared.sight_for(pass, announced, *op, *key),
    }
}

/// Announces the epoch that was read last, and reads the epoch again. `Ok`: the epoch at which the
/// worker is now pinned. `Err`: the epoch that was found instead.
fn attempt(shared: &Shared, pass: &mut Pass, by: &Confirming) -> Result<u64, u64>
    requires own { IsOf shared.now pass.old }
    requires trying { IsTrying pass.old }
    requires key { HasKey (confirming by.now) }
    ensures on { Continues pass.old pass.new }
    ensures won { IfOk result (λ e. WonTry (confirming by.now) e pass.old.view.log
        pass.new.view.log) }
    ensures at { IfOk result (λ e. IsPinnedAt e (call_confirmed by.now) pass.new) }
    ensures lost { IfErr result
        (λ e. LostTry (confirming by.now) pass.old.view.log pass.new.view.log) }
    ensures trying { IfErr result (λ e. IsTrying pass.new) }
    ensures last { IfErr result (λ e. (epochs pass.new).seen ≡ Some e) }
    ensures hands { KeepsHands pass.old pass.new }
{
    let announced = shared.announce(pass);
    confirm(shared, pass, announced, by)
}

/// Reads the epoch, and then makes at most `tries` tries to pin it.
#[inline(always)]
fn pin_by(shared: &Shared, pass: &mut Pass, tries: u32, by: &Confirming) -> Result<u64, Moved>
    requires own { IsOf shared.now pass.old }
    requires unpinned { IsUnpinned pass.old }
    requires key { HasKey (confirming by.now) }
    ensures on { Continues pass.old pass.new }
    ensures pinned { IfOk result
        (λ e. IsPinnedBy (confirming by.now) tries pass.old.view.log pass.new.view.log e) }
    ensures at { IfOk result (λ e. IsPinnedAt e (call_confirmed by.now) pass.new) }
    ensures moved { IfErr result
        (λ m. IsMoved (confirming by.now) tries pass.old.view.log pass.new.view.log) }
    ensures last { IfErr result (λ m. (epochs pass.new).seen ≡ Some m.epoch) }
    ensures rests { IfErr result (λ m. IsResting pass.new) }
    ensures hands { KeepsHands pass.old pass.new }
{
    pass.know_run();
    let first = shared.sight_idle(pass);
    let mut epoch = first;
    if tries == 0 {
        return Err(Moved { epoch });
    }
    for _round in 0..tries {
        match attempt(shared, pass, by) {
            Ok(pinned) => return Ok(pinned),
            Err(found) => epoch = found,
        }
    }
    shared.leave(pass);
    Err(Moved { epoch })
}

/// Pins the epoch. The epoch is read once, and then each try announces the epoch that was read last
/// and reads it again.
///
/// `Ok(epoch)`: the worker is pinned at the epoch that its last sight (epoch read) found, after
/// fewer than `tries` lost tries. `Err`: the epoch moved on in each of `tries` tries, and the
/// announcement is cleared; with 0 tries the epoch was only read. Cost: at most 3 * `tries` + 1
/// steps.
///
/// The worker must not be pinned and must announce nothing. It then has no call, and no cut that
/// waits for a label.
///
/// The epoch is read again after it was announced, because it may have moved on before other
/// workers could see the announcement (Fraser, 2004, chapter 5).
#[inline(always)]
pub fn pin(shared: &Shared, pass: &mut Pass, tries: u32) -> Result<u64, Moved>
    requires own { IsOf shared.now pass.old }
    requires unpinned { IsUnpinned pass.old }
    ensures on { Continues pass.old pass.new }
    ensures pinned { IfOk result
        (λ e. IsPinnedBy Sight tries pass.old.view.log pass.new.view.log e) }
    ensures at { IfOk result (λ e. IsPinnedAt e None pass.new) }
    ensures moved { IfErr result (λ m. IsMoved Sight tries pass.old.view.log pass.new.view.log) }
    ensures last { IfErr result (λ m. (epochs pass.new).seen ≡ Some m.epoch) }
    ensures rests { IfErr result (λ m. IsResting pass.new) }
    ensures hands { KeepsHands pass.old pass.new }
    ensures steps { length pass.new.view.log ≤ length pass.old.view.log + (3 * tries + 1) }
{
    pin_by(shared, pass, tries, &Confirming::Plain)
}

/// Pins the epoch, as `pin` does, for an operation on a key. The operation begins with the sight
/// that confirms the pin. Cost: at most 3 * `tries` + 1 steps.
#[inline(always)]
pub fn pin_for(shared: &Shared, pass: &mut Pass, tries: u32, op: Op, key: Key) -> Result<u64, Moved>
    requires own { IsOf shared.now pass.old }
    requires unpinned { IsUnpinned pass.old }
    ensures on { Continues pass.old pass.new }
    ensures pinned { IfOk result
        (λ e. IsPinnedBy (SightFor op key) tries pass.old.view.log pass.new.view.log e) }
    ensures at { IfOk result (λ e. IsPinnedAt e (Some (record { op = op; key = key })) pass.new) }
    ensures moved { IfErr result
        (λ m. IsMoved (SightFor op key) tries pass.old.view.log pass.new.view.log) }
    ensures last { IfErr result (λ m. (epochs pass.new).seen ≡ Some m.epoch) }
    ensures rests { IfErr result (λ m. IsResting pass.new) }
    ensures hands { KeepsHands pass.old pass.new }
    ensures steps { length pass.new.view.log ≤ length pass.old.view.log + (3 * tries + 1) }
{
    let _ = key.get();
    let by = Confirming::For(op, key);
    pin_by(shared, pass, tries, &by)
}
