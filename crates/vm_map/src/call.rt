// The calls on a map, what they are answered, and the pairs that a map holds.
ghost use Rattle.std.specs.Prelude.{◌≡◌};
ghost use Rattle.vm_map.specs.History.{outcome_of};

use crate::span::Span;
use crate::window::{Bound, Window};
use std::marker::Model;

/// A call on the map.
#[derive(Clone, Copy, Debug, PartialEq, Eq)]
pub enum Call {
    /// Asks for the value at a key.
    Get { key: u64 },
    /// Puts a value at a key, over the one that is there.
    Put { key: u64, value: u64 },
    /// Takes the pair of a key out.
    Del { key: u64 },
    /// Asks for the first pairs from a key on: at least one and at most 28 of them.
    Window { start: u64, most: u32 },
    /// Puts a value at a key where the value there is `want`.
    Swap { key: u64, want: u64, value: u64 },
    /// Asks for all pairs from the key `low` on and below a bound above it.
    Range { low: u64, bound: Bound },
}

/// What a call is answered.
#[derive(Debug, Drop, PartialEq)]
pub enum Reply {
    /// The value at the key of a `Get`.
    Got(Option<u64>),
    /// The value that was at the key of a `Put` before.
    Was(Option<u64>),
    /// The value that was at the key of a `Del` before.
    Gone(Option<u64>),
    /// What a `Window` shows.
    Win(Window),
    /// What a `Swap` did.
    Swapped(Swap),
    /// All pairs of a `Range`.
    Many(Span),
    /// A `Range` was too wide to be answered at once: it has more leaves than can be held, which cover it up to this key.
    Wide(u64),
}

/// What a `Swap` did.
#[derive(Clone, Copy, Debug, Drop, PartialEq)]
pub enum Swap {
    /// The key had the value that was wanted, and has the new one.
    Done,
    /// The key has this value, which is another one.
    Kept(u64),
    /// There is no pair of the key.
    Missing,
}

impl Swap {
    /// What a swap does where this is the value of the key.
    pub fn outcome(there: Option<u64>, want: u64) -> Self
        ensures { result ≡ outcome_of there want }
    {
        match there {
            None => Swap::Missing,
            Some(value) if value == want => Swap::Done,
            Some(value) => Swap::Kept(value),
        }
    }
}

/// A call with its reply.
#[derive(Drop)]
pub struct Said {
    pub call: Call,
    pub reply: Reply,
}

/// A key with its value: contracts see the pair of the two numbers.
#[derive(Clone, Copy, Debug, Default, Drop, PartialEq)]
pub struct Pair {
    pub key: u64,
    pub value: u64,
}

impl Model for Pair {
    ghost use Rattle.std.specs.Prelude.{ℕ};

    ghost Value = { ℕ × ℕ };

    ghost view = { λ p. (p.key, p.value) };

    ghost inverse = { λ d. record { key = d.0; value = d.1 } };
}
