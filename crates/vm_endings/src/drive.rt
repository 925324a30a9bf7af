//! What the crates above name of `vm_drive` through this one.

pub use vm_serve::drive::{Gate, NoGate, Replies, rooms_for};
