//! Tries of writes of the tree: a put, a del and a swap, made in the leaf that covers the key, at the step that releases it.
#![tactic(auto)]

pub mod exmap;
pub mod guard;
pub mod kind;
pub mod leaf;
pub mod pool;
pub mod rule;
pub mod tree_read;
pub mod tree_rule;
pub mod tree_split;
pub mod write;

pub use vm_tree_merge::tree_split::{TrySplit, try_split};
pub use write::{TryWrite, try_del, try_put, try_swap};
