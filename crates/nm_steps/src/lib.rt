//! Workers at run time, which take only steps of the core.
#![tactic(auto)]

mod answers;
mod epoch_steps;
mod pass;
mod pool_steps;
mod tree_steps;
mod value_words;
mod view;
mod words;

pub use answers::Sighted;
pub use pass::{Note, Pass, Shared, Words};
pub use tree_steps::FrozenChain;
pub use view::{Does, Doing, Held, Law, Stored, View};
pub use words::{
    events_touch_one_word, words_have_room, words_tell_the_memory, writes_change_one_word,
};
