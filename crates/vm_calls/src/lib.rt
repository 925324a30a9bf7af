//! A worker and its calls, one after another: what is said of a kind of calls, and those of the tree with words as keys, with their answers in little memory.
#![tactic(auto)]

pub mod answers;
pub mod compact;
pub mod evict;
pub mod exmap;
pub mod gate;
pub mod kind;
pub mod pool;
pub mod spans;
pub mod tree_read;
pub mod tree_rule;
pub mod worker;
