//! What the crates above name of `vm_bytes_drive` through this one.

pub use vm_bytes_drive::answers::{KeyReplies, KeyShort};
pub use vm_bytes_drive::{BytesTree, drive_into, rooms_for};
