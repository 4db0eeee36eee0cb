//! Parses a file of events or of calls, or returns its first faulty line.
pub mod entry;
pub mod fault;
pub mod field;
pub mod file;
pub mod header;
pub mod line;
pub mod pieces;
pub mod value;
