//! The keys of the set.
ghost use Rattle.std.specs.Prelude.{◌≡◌, SomeIff};
ghost use Rattle.nm_edge.specs.Keys.{IsKey};

use std::marker::Model;

/// The greatest key of the set, 2^64 - 4.
pub const MOST_KEY: u64 = u64::MAX - 3;

/// The least key of the fixed nodes. It is greater than each key of the set (the infinite keys of
/// Natarajan and Mittal, section 3.1).
pub const INFINITY_0: u64 = u64::MAX - 2;

/// The second key of the fixed nodes.
pub const INFINITY_1: u64 = u64::MAX - 1;

/// The greatest key of the fixed nodes, and the greatest word.
pub const INFINITY_2: u64 = u64::MAX;

/// A key of the set: an integer from 0 to 2^64 - 4. A contract sees it as the number.
///
/// The three greatest words, 2^64 - 3 to 2^64 - 1, are the keys of the fixed nodes. They are
/// greater than each key of the set (the infinite keys of Natarajan and Mittal).
#[derive(Clone, Copy, Debug, PartialEq, Eq, PartialOrd, Ord)]
pub struct Key(u64);

impl Model for Key {
    ghost use Rattle.std.specs.Prelude.{ℕ};
    ghost use Rattle.nm_edge.specs.Keys.{IsKey};

    ghost Value = { ℕ };

    ghost view = { λ k. k.0 };

    ghost inverse = { λ n. record { 0 = n } };

    ghost invariant = { λ k. IsKey k.0 };
}

impl Key {
    /// Returns the key of that number; `None` exactly if it is above 2^64 - 4.
    pub fn new(number: u64) -> Option<Key>
        ensures { SomeIff result (IsKey number) number }
    {
        if number > MOST_KEY {
            return None;
        }
        Some(Key(number))
    }

    /// Returns the number of the key, 0 to 2^64 - 4.
    pub fn get(self) -> u64
        ensures number { result ≡ self }
        ensures fits { IsKey result }
    {
        let Key(number) = self;
        number
    }
}
