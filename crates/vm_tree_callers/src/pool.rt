//! What the crates above name of `vm_pool` through this one.

pub use vm_pool_callers::pool::{Bring, Pool, Shape};
