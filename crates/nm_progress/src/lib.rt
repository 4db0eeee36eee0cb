//! Progress, as laws: a lost try is due to a change by another worker, and is paid for by what
//! workers won. The laws speak of all ordered runs, and of the contracts of the calls. Nothing here
//! runs.
#![tactic(auto)]

mod alone;
mod deletes;
mod inserts;
mod lookups;
mod lost;
mod moved;
mod paid;
mod pins;
mod puts;
mod tries;
mod walked;
mod worked;

pub use alone::{
    deletes_alone_are_answered, finishes_alone_are_answered, inserts_alone_are_answered,
    lookups_alone_are_answered, walks_alone_are_answered,
};
pub use deletes::{busy_deletes_were_lost, unfinished_deletes_were_lost};
pub use inserts::busy_inserts_were_lost;
pub use lookups::busy_lookups_met_interference;
pub use lost::lost_tries_are_to_others;
pub use moved::{epochs_are_the_moves, missed_pins_are_moves};
pub use paid::{splices_are_paid, tags_are_paid};
pub use pins::lost_pins_were_moved_past;
pub use puts::{busy_puts_were_lost, puts_alone_are_done};
pub use tries::{
    hindrances_are_by_others, hindrances_are_paid, tries_are_lost_to_changes, tries_are_paid,
};
pub use walked::{
    busy_many_met_interference, busy_near_met_interference, short_scans_met_interference,
};
pub use worked::worked_tries;
