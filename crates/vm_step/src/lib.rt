//! A call for each kind of step on a page's own words, on free page numbers and on the next word. Each is one event of the core; its contract is
//! the pass's view afterwards, as a function of its view before and of the word found. The other kinds stand in `vm_supply`, over this crate's
//! operations.
#![tactic(auto)]

mod batch;
mod choice;
pub mod kinds;
mod layout;
pub mod making;
mod operation;
pub mod rule;
mod saw;
mod seat;
mod state_words;
mod took;

pub use batch::Batch;
pub use choice::{Candidates, Looks};
pub use kinds::content::{blank, fill, load, load_at, store, store_at};
pub use kinds::lock::lock_exclusive;
pub use kinds::look::{look, look_silently};
pub use kinds::mapping::{clear, install, set_clean, set_dirty};
pub use kinds::mark::{mark, unmark};
pub use kinds::next::{claim, nload};
pub use kinds::number::{pbload, pgive, ptake};
pub use kinds::owner::{disown, oload, own};
pub use kinds::release::{downgrade, release, release_evicted, release_silently};
pub use kinds::share::{lock_shared, lock_shared_silently, unlock_shared};
pub use kinds::translate::tload;
pub use kinds::write_back::{lock_write_back, upgrade};
pub use layout::frame_place;
pub use saw::{At, Saw};
pub use took::Took;
