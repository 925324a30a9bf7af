//! Writes of the tree that are tried again until they are answered: a put, a del and a swap, which wait, or are made in so many rounds at most.
#![tactic(auto)]

pub mod tree_read;
pub mod tree_rule;
pub mod tree_write;
pub mod waiting;
pub mod within;

pub use waiting::{del, put, swap};
pub use within::{del_within, put_within, swap_within};
