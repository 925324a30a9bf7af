//! The workers on a tree with byte keys: each makes a list of calls with a pass of its own, side by side.
#![tactic(auto)]

mod driving;

pub use driving::{drive_into, rooms_for};
pub use vm_bytes_calls::{BytesTree, answers};
pub use vm_drive::{DrivenInto, gate, pool};
