//! Splits of full nodes: what a split takes before it writes, and the try that takes it and writes.
#![tactic(auto)]

pub mod draft;
pub mod exmap;
pub mod guard;
pub mod kind;
pub mod pool;
pub mod prepare;
pub mod step;
pub mod tree_read;
pub mod tree_rule;
pub mod tries;

pub use tries::{TrySplit, try_split};
