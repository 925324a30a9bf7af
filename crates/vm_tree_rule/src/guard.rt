//! What the crates above name of `vm_guard` through this one.

pub use vm_kind::guard::{ExclusiveGuard, Fresh, Group, NoRoom, fresh, release_group, room_for};
