//! The calls on a map whose keys are byte strings, and what they are answered.

use vm_bytes_node::window::KeyWindow;
use vm_map::call::Swap;
use vm_map::key::Key;

/// A call on the map.
#[derive(Drop)]
pub enum KeyCall {
    /// Asks for the value at a key.
    Get { key: Key },
    /// Puts a value at a key, over the one that is there.
    Put { key: Key, value: u64 },
    /// Takes the pair of a key out.
    Del { key: Key },
    /// Asks for the first pairs from a key on: at least one and at most 28 of them.
    Window { start: Key, most: u32 },
    /// Puts a value at a key where the value there is `want`.
    Swap { key: Key, want: u64, value: u64 },
}

/// What a call is answered.
#[derive(Drop)]
pub enum KeyReply {
    /// The value at the key of a `Get`.
    Got(Option<u64>),
    /// The value that was at the key of a `Put` before.
    Was(Option<u64>),
    /// The value that was at the key of a `Del` before.
    Gone(Option<u64>),
    /// What a `Window` shows.
    Win(KeyWindow),
    /// What a `Swap` did.
    Swapped(Swap),
}

/// A call with its reply.
#[derive(Drop)]
pub struct KeySaid {
    pub call: KeyCall,
    pub reply: KeyReply,
}
