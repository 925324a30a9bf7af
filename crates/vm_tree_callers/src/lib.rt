//! Callers of the tree, proved over the contracts of its calls alone; small trees, and calls on them that keep of their contracts what the next call asks for.
#![tactic(auto)]

pub mod calls;
pub mod guard;
pub mod kind;
mod met;
pub mod pool;
mod put_get;
mod started;
pub mod tree_read;
pub mod tree_rule;
pub mod tree_write;
mod twice;
mod why;
pub mod write_calls;

pub use met::put_meet_get;
pub use put_get::put_then_get;
pub use started::{Started, get_from_start};
pub use twice::get_twice;
pub use why::why_again;
