//! Leaves that become one: the pages concerned are locked one after the other, written and released together, and the numbers of the freed pages given.
#![tactic(auto)]

pub mod exmap;
pub mod guard;
pub mod join;
pub mod kind;
pub mod locks;
pub mod merge;
pub mod pool;
pub mod rule;
pub mod step;
pub mod tree_read;
pub mod tree_rule;
pub mod tree_split;

pub use join::{join_below, join_last};
