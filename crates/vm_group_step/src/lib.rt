//! A call for each kind of step on the state word of a page group. It is one atomic operation on the word of the group's first page, by which each
//! page of the group makes the step, one behind another: what it tells is what each of these tells (`InTurn`). A page of no group is a group by
//! itself here. The steps at one page stand in `vm_step`, over whose operations these are.
#![tactic(auto)]

mod elsewhere;
mod lock;
mod look;
mod mark;
mod release;
mod share;

pub use lock::{
    lock_group, lock_group_is_its_event, lock_group_write_back, lock_group_write_back_is_its_event,
    upgrade_group, upgrade_group_is_its_event,
};
pub use look::{look_group, look_group_is_its_event, look_group_saying};
pub use mark::{mark_group, mark_group_is_its_event, unmark_group, unmark_group_is_its_event};
pub use release::{
    release_group, release_group_evicted, release_group_evicted_is_its_event,
    release_group_is_its_event,
};
pub use share::{share_group, share_group_is_its_event, unshare_group, unshare_group_is_its_event};
