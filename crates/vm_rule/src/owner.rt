//! What the crates above name of `vm_owner` through this one.

pub use vm_owner::{Owner, Ungrouped};
