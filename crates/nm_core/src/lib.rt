//! The pure core: all words of the tree and what every worker knows, changed by one event at a time,
//! from the opening on.
#![tactic(auto)]

mod chain;
mod epoch_steps;
mod found_steps;
mod join_steps;
mod keys;
mod known;
mod machine;
mod places;
mod pool_steps;
mod pure_core;
mod search;
mod searches;
mod tree_steps;
mod worker;

ghost use Rattle.std.specs.Prelude.{[], ◌∷◌};
ghost use Rattle.nm_core.specs.Schedules.{IsAsWorked, IsAsWorkedInOrder};
ghost use Rattle.nm_core.specs.Schedules as worked;
ghost use Rattle.nm_core.specs.Histories.{IsAsTold};
ghost use Rattle.nm_core.specs.Histories as histories;

pub use nm_model::{Event, Field, NewError, Op, Places, Refused, Reply, RunError, Trace, Turn};
pub use pure_core::Core;

/// Law: the definitions, applied to the worked schedules, give what the schedules say: each
/// outcome, each ledger, the epoch and the counts; for ordered cores, the keys too.
pub fn worked_schedules()
    ensures held_back { IsAsWorked worked.held_back }
    ensures two_scanners { IsAsWorked worked.two_scanners }
    ensures stale_announcement { IsAsWorked worked.stale_announcement }
    ensures lost_pin { IsAsWorked worked.lost_pin }
    ensures words_and_places { IsAsWorked worked.words_and_places }
    ensures long_chain { IsAsWorked worked.long_chain }
    ensures both_flagged { IsAsWorked worked.both_flagged }
    ensures helping { IsAsWorked worked.helping }
    ensures order_and_age { IsAsWorked worked.order_and_age }
    ensures refusals { IsAsWorked worked.refusals }
    ensures joining { IsAsWorked worked.resigning_schedule }
    ensures insert_in_order { IsAsWorkedInOrder worked.insert_in_order (5 ∷ []) }
    ensures delete_in_order { IsAsWorkedInOrder worked.delete_in_order [] }
    ensures parent_cut { IsAsWorkedInOrder worked.parent_cut (5 ∷ 6 ∷ 12 ∷ []) }
{}

/// Law: two worked schedules have the histories that were worked out by hand. In one, another
/// worker's splice ends a delete that is never answered. In the other, a look-up answers by a leaf
/// that was cut off in the meantime.
pub fn worked_histories()
    ensures helped { IsAsTold histories.helped }
    ensures stale { IsAsTold histories.stale }
{}
