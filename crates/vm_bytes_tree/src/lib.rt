//! The tree whose keys are byte strings, over the buffer manager: its nodes as a kind, and the calls.
//!
//! A tree is stated over a kind of node (`vm_kind`); this is the kind whose keys are strings of at most 64 bytes, each of which has a number, its rank. So descents,
//! reads, splits and rounds are those of every tree, and what they tell of ranks holds of strings (`vm_bytes_laws`).
#![tactic(auto)]

mod keys;
mod windows;

pub use keys::{BytesKeys, BytesTree};
pub use vm_tree_del::tree_read::{TryRead, get, show_window, try_get};
pub use vm_tree_del::tree_retry::{put, swap};
pub use vm_tree_del::tree_rule::TreeFault;
pub use vm_tree_del::tree_write::{TrySplit, TryWrite, try_put, try_split, try_swap};
pub use vm_tree_del::{del, try_del};
pub use windows::window;
