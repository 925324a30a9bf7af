//! What the crates above name of `vm_rule` through this one.

pub use vm_rule::view::View;
pub use vm_rule::words::{Pass, Words};
