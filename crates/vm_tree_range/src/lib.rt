//! Ranges of the tree: all pairs from a key on and below a bound, answered from leaves that are held together, at the last of their locks.
#![tactic(auto)]

pub mod evict;
pub mod exmap;
pub mod hold;
pub mod kind;
pub mod pool;
pub mod ranges;
pub mod tree_read;
pub mod tree_rule;

pub use hold::{LEAVES, TryRange};
pub use ranges::{range, range_within, try_range};
