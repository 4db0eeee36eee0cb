//! Look-ups of one key.
ghost use Rattle.nm_model.specs.declared.event.Op.TheVariants.{Has};
ghost use Rattle.nm_steps.specs.Steps.{IsOf};
ghost use Rattle.nm_epoch.specs.Resting.{IsResting};
ghost use Rattle.nm_calls.specs.Calls.{AfterHas};

use crate::fault::CallFault;
use crate::leaving::answer;
use nm_edge::Key;
use nm_epoch::{pin_for, unpin};
use nm_model::Op;
use nm_steps::{Pass, Shared};
use nm_walks::find;

/// Returns whether the set has the key: whether the leaf at which the walk for it ends has this
/// key, flagged or not. The worker must rest, and it rests afterwards.
///
/// Errors: `Busy`, for one of these reasons:
/// - `tries` is 0; then there was no step.
/// - The pin was lost in each of `tries` tries.
/// - Each of `tries` walks had looked at as many nodes as there are, and had not ended. In a radix
///   tree this never happens: there a look-up that has its pin returns an answer, whatever others
///   do.
///
/// Cost: at most `tries` * (4 `reach` + 512) + 10 steps. A walk's reach is 66 nodes in a radix
/// tree, and the number of nodes otherwise. (The search of Natarajan and Mittal, section 3.2.)
#[inline(always)]
pub fn has(shared: &Shared, pass: &mut Pass, key: Key, tries: u32) -> Result<bool, CallFault>
    requires own { IsOf shared.now pass.old }
    requires rests { IsResting pass.old }
    ensures { AfterHas shared.now.layout tries key pass.old pass.new result }
{
    if tries == 0 {
        return Err(CallFault::Busy);
    }
    pass.know_run();
    let Ok(_epoch) = pin_for(shared, pass, tries, Op::Has, key) else {
        return Err(CallFault::Busy);
    };
    for _walk in 0..tries {
        if let Some(found) = find(shared, pass, key.get()) {
            let present = found == key.get();
            answer(shared, pass, present);
            return Ok(present);
        }
    }
    unpin(shared, pass);
    Err(CallFault::Busy)
}
