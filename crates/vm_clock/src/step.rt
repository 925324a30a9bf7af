//! What the crates above name of `vm_step` through this one.

pub use vm_supply::step::{Batch, Looks, Saw};
pub use vm_supply::{catch_up, follow_pass, hear_pass, join_pass, split_pass};
