//! A del in a tree of any kind of node that is edited: the pair is taken out of its leaf alone, and no leaf is merged. It is the del of kinds whose nodes
//! never merge.
#![tactic(auto)]

mod once;
mod round;
pub mod tree_read;
pub mod tree_retry;
pub mod tree_rule;
pub mod tree_write;
mod waiting;

pub use once::try_del;
pub use round::del_round;
pub use waiting::del;
