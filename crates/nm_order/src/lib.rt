//! Laws of ordered runs: what calls do to the tree and to the set, and what follows from one
//! worker's log. Nothing here runs.
#![tactic(auto)]

mod answers;
mod facts;
mod hands;
mod history;
mod logs;
mod order;
mod paths;
mod radix;
mod reads;
mod taught;
mod told;
mod walks;

pub use answers::{answers_tell_changes, deletes_have_flagged, inserts_are_links};
pub use facts::{facts_are_true, facts_stay, later_walks_find_the_flag, own_births_stand};
pub use hands::{hands_are_apart, held_ledgers_are_kept, unpinned_workers_have_no_call};
pub use history::{
    answers_are_of_their_calls, answers_were_legal, deletes_are_cuts, flagged_leaves_are_pending,
    logged_answers_have_moments, runs_are_histories, totals_agree,
};
pub use logs::logs_tell_what_is_known;
pub use order::{
    flags_mark_leaves, keys_are_the_set, links_insert, links_name_new_nodes, trees_are_in_order,
};
pub use paths::{radix_walks_do_no_harm, stale_paths_do_no_harm, walks_tell_of_the_set};
pub use radix::{radix_walks_are_short, radix_walks_pass_routers, ranges_nest};
pub use reads::{epochs_are_read_in_order, pins_are_told};
pub use taught::{entries_teach_facts, looks_take_walks_on};
pub use told::{
    answers_name_what_is_known, claims_are_new, cuts_enter_the_queue, edges_are_told,
    frozen_chains_may_be_cut, low_keys_stand_high,
};
pub use walks::{flags_are_told, flags_stay, walks_after_the_flag, walks_are_arrivals};
