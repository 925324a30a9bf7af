//! The storage of one page: the traits of devices, each with counts of its calls and its faults, and a device in memory.
#![tactic(auto)]

mod block;
mod memory;
mod plan;
mod stored;

pub use block::{Block, PageBlock};
pub use memory::MemBlock;
pub use stored::Stored;
pub use vm_page::Failed;
