//! The trace of a run: its events with their outcomes.
ghost use Rattle.std.specs.Prelude.{◌≡◌};

use crate::event::Event;
use crate::reply::{Refused, Reply};
use std::marker::Model;
use thiserror::Error;

/// A turn (transition): one event of a run, with its worker and its outcome.
#[derive(Debug, Drop)]
pub struct Turn {
    pub worker: u32,
    pub event: Event,
    pub outcome: Result<Reply, Refused>,
}

/// The events of a run in their order, including the refused ones.
#[derive(Debug, Drop)]
pub struct Trace {
    turns: Vec<Turn>,
}

impl Model for Trace {
    ghost use Rattle.std.specs.Prelude.{List};
    ghost use Rattle.nm_model.specs.declared.trace.Turn.{Turn};

    ghost Value = { List Turn };

    ghost view = { λ t. t.turns.items };
}

impl Trace {
    pub fn from_turns(turns: Vec<Turn>) -> Trace
        ensures { result ≡ turns.items }
    {
        Trace { turns }
    }

    /// Returns the turns in their order.
    pub fn as_slice(&self) -> &[Turn]
        ensures { result.now ≡ self.now }
    {
        self.turns.as_slice()
    }
}

/// A run was out of memory.
#[derive(Clone, Copy, Debug, PartialEq, Eq, Error)]
#[error("no memory after {done} events")]
pub struct RunError {
    /// The number of events that were applied. No others were.
    pub done: usize,
}
