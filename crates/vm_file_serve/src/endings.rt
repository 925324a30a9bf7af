//! What the crates above name of `vm_endings` through this one.

pub use vm_reading::endings::{Delivery, Ends, Stop, Undone, deliver, ends, refuse, say};
