//! Tests of several calls on members of a set. Each test is a function that is proved before it runs.
//! No other crate depends on this one.
#![tactic(auto)]

#[cfg(test)]
mod members;
#[cfg(test)]
mod ranges;
#[cfg(test)]
mod together;
