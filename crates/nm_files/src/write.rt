//! Writes replies and states as text.
pub mod last_lines;
pub mod reply;
