//! Devices: page files by name, whose pages are read and written through blocks that are taken out and brought back; in memory, and over the real files.
#![tactic(auto)]

mod device;
mod file_block;
mod files;
mod ledger;
mod memory;
mod outs;
mod page;
mod sync;
mod whole;

pub use device::Devices;
pub use file_block::FileBlock;
pub use files::FileDevices;
pub use memory::{BlockFault, MemDevices, PagesFile};
pub use page::MemPage;
pub use sync::SyncBlock;
pub use vm_page::Failed;
pub use whole::{TakeFault, bring_all, sync_all, take_all};
