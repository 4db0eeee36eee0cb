//! Tests of several calls: over passes, on trees, and on whole scripts. Each test is a function that
//! is proved before it runs. No other crate depends on this one.
#![tactic(auto)]

#[cfg(test)]
mod gates;
#[cfg(test)]
mod many;
#[cfg(test)]
mod passes;
#[cfg(test)]
mod streams;
#[cfg(test)]
mod trees;
