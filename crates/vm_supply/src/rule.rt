//! What the crates above name of `vm_rule` through this one.

pub use vm_step::rule::{Pass, Words};
