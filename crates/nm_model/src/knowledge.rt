//! What one worker knows: its epochs, the known nodes and the private slots.

ghost use Rattle.std.specs.Prelude.{◌≡◌, ◌<◌, ◌^◌, true};
ghost use Rattle.nm_model.specs.Knowledge.{unread, unfilled, read_on, beside};
ghost use Rattle.nm_model.specs.Learning.{with_read, filled_in};
ghost use Rattle.nm_model.specs.Step.{is_edge, is_early, is_fork_over};
ghost use Rattle.nm_model.specs.Maps.{is_number};
ghost use Rattle.nm_model.specs.Ordered.{is_fork_for, parts, parts_from};

use crate::event::Field;
use nm_edge::{Edge, Key, Side, covers};

/// The epochs of a worker, and whether a label is due.
#[derive(Clone, Copy, Debug, PartialEq, Eq)]
pub struct Brief {
    /// The global epoch last read.
    pub seen: Option<u64>,
    /// The epoch that the worker announces, if any.
    pub announcement: Option<u64>,
    /// The epoch at which it is pinned, if it is.
    pub pin: Option<u64>,
    /// Whether nodes that it cut wait for their label.
    pub unlabelled: bool,
}

/// What a worker has read of a known node: the last word of each edge, and the birth (generation).
#[derive(Clone, Copy, Debug, PartialEq, Eq)]
pub struct Seen {
    pub left: Option<Edge>,
    pub right: Option<Edge>,
    pub birth: Option<u64>,
}

/// What a worker knows of a private slot: the birth word that it read, and the fields that it
/// stored.
#[derive(Clone, Copy, Debug, PartialEq, Eq)]
pub struct Draft {
    pub looked: Option<u64>,
    pub birth: Option<u64>,
    pub key: Option<u64>,
    pub left: Option<u32>,
    pub right: Option<u32>,
}

impl Seen {
    /// Returns the knowledge of a node before any of its words was read.
    pub fn unread() -> Seen
        ensures { result ≡ unread }
    {
        Seen {
            left: None,
            right: None,
            birth: None,
        }
    }

    /// Returns the last word read of the edge on a side, if any.
    pub fn on(self, side: Side) -> Option<Edge>
        ensures { result ≡ read_on self side }
    {
        match side {
            Side::Left => self.left,
            Side::Right => self.right,
        }
    }

    /// Returns the knowledge after the edge on a side was read.
    pub fn with_read(self, side: Side, edge: Edge) -> Seen
        ensures { result ≡ with_read self side edge }
    {
        match side {
            Side::Left => Seen {
                left: Some(edge),
                ..self
            },
            Side::Right => Seen {
                right: Some(edge),
                ..self
            },
        }
    }
}

impl Draft {
    /// Returns the draft of a slot in which nothing was read or stored yet.
    pub fn unfilled() -> Draft
        ensures { result ≡ unfilled }
    {
        Draft {
            looked: None,
            birth: None,
            key: None,
            left: None,
            right: None,
        }
    }

    /// Returns whether the draft is filled as an internal node over this leaf.
    pub fn is_fork_over(self, leaf: u32) -> bool
        ensures { result ≡ is_fork_over self leaf }
    {
        self.key.is_some() && (self.left == Some(leaf) || self.right == Some(leaf))
    }

    /// Returns whether this key was stored.
    pub fn has_key(self, key: Key) -> bool
        ensures { result ≡ is_number self.key key }
    {
        self.key == Some(key.get())
    }

    /// Returns whether the draft is filled as an internal node that puts a new leaf with `key`
    /// beside `leaf`, whose key is `other`. It must have the greater of both keys, and `leaf` on
    /// the side of `other`.
    pub fn is_fork_for(self, leaf: u32, key: Key, other: u64) -> bool
        ensures { result ≡ is_fork_for self leaf key other }
    {
        if key.get() < other {
            self.key == Some(other) && self.right == Some(leaf)
        } else {
            self.key == Some(key.get()) && self.left == Some(leaf)
        }
    }

    // Returns whether the draft is filled as an internal node of a radix tree that parts `key` from
    // `slot`, whose key is `other`. Both keys must be in its range, in different halves, and the
    // slot on the side of `other`.
    fn parts(self, slot: u32, key: Key, other: u64) -> bool
        ensures { result ≡ parts self slot key other self.key }
    {
        let Some(router) = self.key else {
            return false;
        };
        let is_between = if key.get() < router {
            router <= other && self.right == Some(slot)
        } else {
            other < router && self.left == Some(slot)
        };
        covers(router, key.get()) && covers(router, other) && is_between
    }

    /// Returns whether the draft parts the key from the slot, whose key was read as `other`. The
    /// slot must have another key, and be known as a leaf or not have the key in its range.
    pub fn parts_from(self, slot: u32, key: Key, is_leaf: bool, other: Option<u64>) -> bool
        ensures { result ≡ parts_from self slot key is_leaf other }
    {
        let Some(other) = other else {
            return false;
        };
        other != key.get() && (is_leaf || !covers(other, key.get())) && self.parts(slot, key, other)
    }

    /// Returns, of the two filled edges, the one that does not lead to the leaf.
    pub fn beside(self, leaf: u32) -> Option<u32>
        ensures { result ≡ beside self leaf }
    {
        if self.left == Some(leaf) {
            self.right
        } else {
            self.left
        }
    }

    /// Returns whether the field may not be stored. A birth is stored only once, as one more than
    /// the word `birth`. Other fields are stored only after the birth.
    pub fn is_early(self, field: Field, value: u64, birth: u64) -> bool
        ensures { result ≡ is_early self field value birth }
    {
        match field {
            Field::Birth => self.birth.is_some() || birth.checked_add(1) != Some(value),
            _ => self.birth.is_none(),
        }
    }

    /// Returns the draft after a field was stored.
    pub fn filled_in(self, field: Field, value: u64) -> Draft
        requires { is_edge field ≡ true → value < 2 ^ 32 }
        ensures { result ≡ filled_in self field value }
    {
        match field {
            Field::Key => Draft {
                key: Some(value),
                ..self
            },
            Field::Edge(Side::Left) => Draft {
                left: Some(value as u32),
                ..self
            },
            Field::Edge(Side::Right) => Draft {
                right: Some(value as u32),
                ..self
            },
            Field::Birth => Draft {
                looked: None,
                birth: Some(value),
                ..self
            },
        }
    }
}
