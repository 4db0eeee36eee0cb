//! The theorem on one page: what the words of the tree and the turns of every run keep. It does not
//! mention what a worker knows. Nothing here runs.
#![tactic(auto)]

mod headline;
mod worked;

pub use headline::{
    answers_stand, each_run_has_the_headline, inserts_are_found, logs_are_parts_of_turns,
    nobody_reads_another_node, ordered_runs_have_histories, readers_of_freed_nodes_have_left,
};
pub use worked::worked_turns;
