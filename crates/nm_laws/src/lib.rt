//! The laws of all runs.
#![tactic(auto)]

mod laws;

pub use laws::{
    arrivals_are_walks, counts_add_up, counts_are_numbers_of_slots, each_ledger_has_one_holder,
    each_slot_has_one_place, epochs_agree, frozen_edges_stay_frozen, grace_holds,
    keys_stand_from_the_left, labels_are_in_order, ledgers_are_the_cuts, no_node_is_cut_twice,
    nothing_else_cuts, ordered_runs_are_runs, pinned_workers_are_safe, pins_stay_near,
    plain_runs_are_runs, runs_can_be_split, searches_only_grow, splices_cut_their_nodes,
    what_was_freed_is_what_gives_freed, what_was_read_stands,
};
