//! What the crates above name of `vm_block` through this one.

pub use vm_block::Block;
