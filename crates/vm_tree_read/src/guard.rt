//! What the crates above name of `vm_guard` through this one.

pub use vm_pool::guard::{Deny, OptGuard};
pub use vm_tree_rule::guard::{
    ExclusiveGuard, Fresh, Group, NoRoom, fresh, release_group, room_for,
};
