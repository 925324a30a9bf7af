//! A round of a write of the tree: one try, and what its answer asks for, as a page to be brought, or room to be made. It never waits.
#![tactic(auto)]

pub mod exmap;
pub mod kind;
pub mod pool;
mod round;
pub mod rule;
pub mod tree_read;
pub mod tree_rule;
pub mod tree_write;

pub use round::{del_round, put_round, swap_round};
