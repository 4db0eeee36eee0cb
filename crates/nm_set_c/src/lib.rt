//! The set for C: `c/include/nm_set.h` declares what is exported here.
//!
//! A program in C holds handles, each two words that are zero while it is closed. An open handle
//! owns a set or a map, one of its workers, or the report that it was closed with. No export requires
//! anything of its arguments: misuse returns an error, and then nothing has changed. The header
//! says what nobody can test, and a program must keep.
//!
//! The second word says whether a call has the handle. Each call takes it by one atomic exchange
//! before it reads the first word, and gives it back by another after its last write. The module
//! `handle` requires this order of each function that touches the two words, and no other module can
//! name them. The clauses say that a handle in use is refused and stays as it is (`IsRefused`,
//! `CannotOpen`), and that a call has what it claimed until it puts it back. The module `word` is for
//! the exchange, which is one step.
#![tactic(auto)]

mod claiming;
mod ending;
mod epochs;
mod handle;
mod keys;
mod managed;
mod many;
mod map_entries;
mod map_epochs;
mod map_many;
mod map_puts;
mod map_removing;
mod map_reports;
mod map_scanning;
mod map_values;
mod map_workers;
mod maps;
mod next_key;
mod notes;
mod opening;
mod outcome;
mod owner;
mod place;
mod popping;
mod remains;
mod reports;
mod scanning;
mod sets;
mod version;
mod word;
mod workers;
