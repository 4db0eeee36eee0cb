//! The calls of the set over a pass and a queue: look-ups, inserts and deletes. They use the steps
//! and walks of `nm_walks`.
#![tactic(auto, using(nm_steps::proofs::Seeing::seen_all))]

mod deleting;
mod fault;
mod handing_back;
mod helping;
mod inserting;
mod laws;
mod leaving;
mod lookup;
mod many;
mod map_many;
mod map_scanning;
mod near_key;
mod scan_plan;
mod scanning;
mod stretches;
mod values;

pub use deleting::{
    Deletion, FlaggedLeaf, Injected, Injection, Removal, Unfinished, delete, end_delete, finish,
    flag_or_help,
};
pub use fault::CallFault;
pub use handing_back::collect_values;
pub use helping::{help, make_room, make_room_for};
pub use inserting::{insert, seek_place};
pub use laws::{
    cut_values_were_stored, gets_are_of_the_map, got_values_stay_out, guarded_values_stay_out,
    histories_are_of_maps, leaves_have_one_store, leaves_keep_their_values, nodes_are_freed_once,
    pinned_values_stay_out, put_values_stay, stored_values_are_at_one_place, taken_values_are_cut,
    taken_values_are_of_their_acts, values_are_by_all_stores, values_come_back_as_stored,
    values_come_back_once, values_were_put,
};
pub use leaving::{answer, leave};
pub use lookup::has;
pub use many::{Query, has_many};
pub use map_many::get_many_pinned;
pub use map_scanning::{MapEntry, scan_with_values};
pub use near_key::{nearest, nearest_with_value};
pub use scanning::{Scanned, scan};
pub use values::{get, get_pinned};
