//! What the crates above name of `vm_drive` through this one.

pub use vm_drive::compact::{Replies, Short};
pub use vm_drive::gate::{Gate, NoGate};
pub use vm_drive::{DrivenInto, drive_into, rooms_for};
