//! Workers over one pool: each has a pass, an interface and a list of calls; they run by std's parallel walk, and their passes are joined
//! afterwards. And a pass that makes three entries. They are callers of the layers below, by their contracts alone.
#![tactic(auto)]

pub mod entries;
mod joins;
pub mod pool_callers;
pub mod puts;
pub mod tally;
mod walk;
pub mod worker;

pub use joins::join_workers;
pub use walk::{run_all, run_and_join};
