//! Merges of leaves: a leaf that keeps few pairs once a key is gone becomes one with its neighbour, in one group with the pages above them.
#![tactic(auto)]

pub mod beside;
pub mod exmap;
pub mod guard;
pub mod kind;
pub mod pair;
pub mod pool;
pub mod step;
pub mod tree_read;
pub mod tree_rule;
pub mod tree_split;
pub mod tries;

pub use tries::{Merge, try_merge};
