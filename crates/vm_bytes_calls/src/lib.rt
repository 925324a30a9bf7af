//! A worker's calls of the tree with byte keys, one after another, and the answers in little memory.
#![tactic(auto)]

pub mod answers;
pub mod worker;

pub use vm_bytes_tree::BytesTree;
