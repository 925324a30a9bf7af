//! What the crates above name of `vm_tree_retry` through this one.

pub use vm_tree_retry::{put, swap};
