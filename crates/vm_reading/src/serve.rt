//! What the crates above name of `vm_serve` through this one.

pub use vm_endings::serve::{Served, ServedOn, serve, serve_into, serve_on};
