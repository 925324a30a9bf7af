//! Devices in memory. What their calls do stands in `calls`.

ghost use Rattle.std.specs.Prelude.{◌≡◌, ◌*◌, ◌/◌, length};
ghost use Rattle.vm_page.specs.Sizes.{IsSize};

mod calls;

use crate::ledger::Ledger;
use std::alloc::Global;
use vm_page::PageBuf;

/// A file in memory: its name, how many bytes it has, and the pages that are whole in it.
#[derive(Drop)]
pub struct PagesFile<const N: usize> {
    name: String,
    size: u64,
    pages: Vec<PageBuf<N>>,
    ghost whole: { length pages.items ≡ size / (8 * N) },
}

/// An entry of a plan of failures of blocks: a call with this number on a block of this page of any file fails.
#[derive(Clone, Copy)]
pub struct BlockFault {
    pub page: u32,
    pub number: u64,
}

/// Page files in memory, of two with one name the first. A page's block that is taken out is a new one each time, with the page's words.
#[derive(Drop)]
pub struct MemDevices<const N: usize> {
    alloc: Global,
    files: Vec<PagesFile<N>>,
    plan: Vec<u64>,
    calls: u64,
    block_calls: Vec<BlockFault>,
    block_syncs: Vec<BlockFault>,
    ledger: Ledger,
    ghost sized: { IsSize N },
}
