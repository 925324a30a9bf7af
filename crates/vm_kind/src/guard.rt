//! What the crates above name of `vm_guard` through this one.

pub use vm_guard::{
    Deny, ExclusiveGuard, Fresh, Group, NoRoom, OptGuard, fresh, release_group, room_for,
};
