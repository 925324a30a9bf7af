//! A call for each kind of step on what stands behind pages: free frames, the clock's hand, blocks and their fault words; and passes that part, meet,
//! join and catch up. Their definitions stand in `vm_step`, with the other kinds of steps.
#![tactic(auto)]

pub mod kinds;
mod operation;
pub mod rule;
pub mod step;

pub use kinds::block::{block_home, block_out};
pub use kinds::bundle::{bload, give, take};
pub use kinds::catch_up::catch_up;
pub use kinds::hand::hand;
pub use kinds::pass::{follow_pass, hear_pass, join_pass, split_pass};
pub use kinds::raise::raise;
