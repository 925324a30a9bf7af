//! What the crates above name of `vm_guard` through this one.

pub use vm_tree_merge::guard::{Deny, OptGuard};
