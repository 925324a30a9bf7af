//! What the crates above name of `vm_pool` through this one.

pub use vm_tree_write::pool::Pool;
