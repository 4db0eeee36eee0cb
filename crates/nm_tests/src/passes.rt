//! Tests below the tree, over the passes of a table and over the core; and the passes of a new
//! table, with which they begin.
ghost use Rattle.std.specs.Prelude.{◌≡◌, length, IfSome};
ghost use Rattle.nm_pool.specs.Claims.{IsNewNode};
ghost use Rattle.nm_steps.specs.Rules.{knowledge};
ghost use Rattle.nm_steps.specs.Steps.{AreFresh, Continues, IsOf};
ghost use Rattle.nm_calls.specs.Fresh.{HasDoneNothing};

use nm_edge::{Fit, NodeId, Placement};
use nm_pool::claim_by;
use nm_steps::{Pass, Shared};

mod calls;
mod core_calls;
mod epochs;
mod near_claims;
mod pools;
mod radix_cores;
mod reports;
mod values;
mod workers;

/// Returns the pass of a table of one worker.
#[tactic(auto, using(nm_calls::proofs::FreshWorkers::fresh_worker))]
pub(super) fn only(shared: &Shared, mut passes: Vec<Pass>) -> Pass
    requires workers { shared.now.layout.workers ≡ 1 }
    requires one { length passes.items ≡ 1 }
    requires fresh { AreFresh shared.now 0 passes.items }
    ensures own { IsOf shared.now result }
    ensures new { HasDoneNothing result }
{
    let Some(pass) = passes.pop() else {
        unreachable!()
    };
    pass
}

/// Returns the two passes of a table of two workers.
#[tactic(auto, using(nm_calls::proofs::FreshWorkers::fresh_worker))]
pub(super) fn both(shared: &Shared, mut passes: Vec<Pass>) -> (Pass, Pass)
    requires workers { shared.now.layout.workers ≡ 2 }
    requires two { length passes.items ≡ 2 }
    requires fresh { AreFresh shared.now 0 passes.items }
    ensures first { IsOf shared.now result.0 }
    ensures first_new { HasDoneNothing result.0 }
    ensures second { IsOf shared.now result.1 }
    ensures second_new { HasDoneNothing result.1 }
{
    let Some(second) = passes.pop() else {
        unreachable!()
    };
    let Some(first) = passes.pop() else {
        unreachable!()
    };
    (first, second)
}

/// Returns the three passes of a table of three workers.
#[tactic(auto, using(nm_calls::proofs::FreshWorkers::fresh_worker))]
pub(super) fn three(shared: &Shared, mut passes: Vec<Pass>) -> (Pass, Pass, Pass)
    requires workers { shared.now.layout.workers ≡ 3 }
    requires three { length passes.items ≡ 3 }
    requires fresh { AreFresh shared.now 0 passes.items }
    ensures first { IsOf shared.now result.0 }
    ensures first_new { HasDoneNothing result.0 }
    ensures second { IsOf shared.now result.1 }
    ensures second_new { HasDoneNothing result.1 }
    ensures third { IsOf shared.now result.2 }
    ensures third_new { HasDoneNothing result.2 }
{
    let Some(third) = passes.pop() else {
        unreachable!()
    };
    let Some(second) = passes.pop() else {
        unreachable!()
    };
    let Some(first) = passes.pop() else {
        unreachable!()
    };
    (first, second, third)
}

/// Claims a node in the lowest free slot.
pub(super) fn claim(shared: &Shared, pass: &mut Pass) -> Option<NodeId>
    requires { IsOf shared.now pass.old }
    ensures on { Continues pass.old pass.new }
    ensures made { IfSome result (IsNewNode (knowledge pass.new.view)) }
{
    claim_by(shared, pass, &mut Placement::new(Fit::FirstFit, 6))
}
