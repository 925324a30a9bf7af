//! Guards: a page that is read optimistically, shared with others, or held exclusively. They are made and spent by calls over the steps.
#![tactic(auto)]

mod deny;
mod exclusive;
mod free_pages;
mod fresh_pages;
mod given;
mod group;
mod held;
mod opt;
mod pair;
pub mod rule;
mod shared;
mod single;
mod standing;

pub use deny::Deny;
pub use exclusive::ExclusiveGuard;
pub use free_pages::{fresh, room_for};
pub use given::{Fresh, NoRoom};
pub use group::{Group, release_group};
pub use held::say_of_two;
pub use opt::OptGuard;
pub use pair::write_two;
pub use shared::SharedGuard;
pub use single::read_word;
