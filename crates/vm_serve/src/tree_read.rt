//! What the crates above name of `vm_tree_read` through this one.

pub use vm_drive::tree_read::get;
