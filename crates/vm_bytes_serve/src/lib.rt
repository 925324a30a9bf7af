//! Workers' calls on a tree with byte keys: a pool over the blocks of an image, or over blocks of any kind, the workers, the flush, the end.
#![tactic(auto)]

mod serving;
mod strings;
pub mod tree_rule;

pub use serving::{KeyServed, serve, serve_on};
pub use vm_bytes_history::drive::{BytesTree, KeyReplies, KeyShort};
