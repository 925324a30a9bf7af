//! What the crates above name of `vm_step` through this one.

pub use vm_tree_join::step::{Saw, frame_place};
