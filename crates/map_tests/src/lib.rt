//! Tests of several calls on members of a map, and on sets and maps that any thread calls. Each test is
//! a function that is proved before it runs. No other crate depends on this one.
#![tactic(auto)]

#[cfg(test)]
mod maps;
#[cfg(test)]
mod shared;
