//! Plays calls on a tree, and schedules on cores, whose growths may be refused. What is refused is
//! tried once more, so each run prints the same lines, whichever one growth was refused in it
//! (`.ci/refused`).
#![tactic(auto)]

mod cores;
mod schedules;
mod trees;

use crate::cores::play_cores;
use crate::trees::play_trees;
use anyhow::Result;

fn main(rt: HostRuntime) -> Result<()> {
    play_trees(&rt)?;
    play_cores(&rt)
}
