//! A store that is closed into the bytes of a page file.

ghost use Rattle.std.specs.Prelude.{◌*◌, ◌≡◌, ◌≤◌, length, MatchResult, OnErr, OnOk};
ghost use Rattle.vm_image.specs.{Blocks.pages_of_blocks, File.IsPageFile, File.bytes_of_pages, File.pages_of_bytes};
ghost use Rattle.vm_c.specs.{Closed.IsClosedInto, Closed.IsUnclosed, declared.opened.OpenStore.OpenStore, Fits.IsFitStore, Given.TookIn};

use crate::opened::OpenStore;
use std::alloc::{AllocFailed, Global};
use vm_block::MemBlock;
use vm_face::kind::{TreeOf, Words64};
use vm_face::{Closing, Summary};
use vm_image::{Memory, image_of};

/// What was counted of all pages' blocks, and how many pages' last words are not in the image.
#[repr(C)]
#[derive(Clone, Copy, Drop)]
pub struct BlockCounts {
    pub reads: u64,
    pub writes: u64,
    pub faults: u64,
    pub unwritten: u64,
}

/// Why a store is not closed into an image.
#[derive(Drop)]
pub enum Unclosed {
    /// The image is not as long as the store's pages: the store comes back as it was.
    Length(Box<OpenStore, Global>),
    /// Hands are out: the store comes back, with those taken in that were back.
    Hands(Box<OpenStore, Global>),
    /// No hand is out, but somebody has a share of the pool: the store comes back.
    Shared(Box<OpenStore, Global>),
    /// There was no memory: the store is gone, and the image as it was.
    Memory,
}

/// Takes in the hands that came back, writes what is dirty, ends the store, and writes its pages to the image.
pub fn close(
    alloc: Global,
    open: Box<OpenStore, Global>,
    image: &mut [u8],
) -> Result<BlockCounts, Unclosed>
    requires store { IsFitStore open.value }
    ensures { MatchResult result (λ counts. (between : OpenStore) × TookIn open.value between × IsClosedInto between image.new counts)
        (IsUnclosed open.value image.old image.new) }
{
    if image.len() != 512 * open.store.pages() {
        return Err(Unclosed::Length(open));
    }
    let open = with_hands_back(open);
    if open.store.out() != 0 {
        return Err(Unclosed::Hands(open));
    }
    match Box::into_inner(open).into_store().close(alloc) {
        Ok(summary) => match write_back(alloc, summary.blocks.as_slice(), image) {
            Ok(()) => Ok(counts_of(&summary)),
            Err(_) => Err(Unclosed::Memory),
        },
        Err(Closing::Hands(store)) => match Box::new(alloc, OpenStore { store }) {
            Ok(open) => Err(Unclosed::Hands(open)),
            Err(_) => Err(Unclosed::Memory),
        },
        Err(Closing::Shared(store)) => match Box::new(alloc, OpenStore { store }) {
            Ok(open) => Err(Unclosed::Shared(open)),
            Err(_) => Err(Unclosed::Memory),
        },
        Err(Closing::Memory) => Err(Unclosed::Memory),
    }
}

// The store, with the hands taken in that were back.
fn with_hands_back(mut open: Box<OpenStore, Global>) -> Box<OpenStore, Global>
    requires store { IsFitStore open.value }
    ensures store { IsFitStore result.value }
    ensures took { TookIn open.value result.value }
{
    take_in(&mut open);
    open
}

// Takes in the hands that are back.
fn take_in(open: &mut OpenStore)
    requires store { IsFitStore open.old }
    ensures store { IsFitStore open.new }
    ensures took { TookIn open.old open.new }
{
    open.store.take_in();
}

// What was counted of the blocks of a store that is closed.
fn counts_of(summary: &Summary<TreeOf<Words64>, MemBlock<64>>) -> BlockCounts
    ensures { result.unwritten ≡ summary.now.report.failed }
{
    BlockCounts {
        reads: summary.ended.reads(),
        writes: summary.ended.writes(),
        faults: summary.ended.faults(),
        unwritten: summary.report.failed as u64,
    }
}

// Writes the pages that the blocks hold to the image.
fn write_back(alloc: Global, blocks: &[MemBlock<64>], image: &mut [u8]) -> Result<(), Memory>
    requires some { (2 ≤ length blocks.now) × (length blocks.now ≤ 65536) }
    requires size { length image.old ≡ 512 * length blocks.now }
    ensures written { OnOk result (image.new ≡ bytes_of_pages (pages_of_blocks blocks.now)) }
    ensures back { OnOk result (IsPageFile 64 image.new × (pages_of_bytes 64 image.new ≡ pages_of_blocks blocks.now)) }
    ensures none { OnErr result (image.new ≡ image.old) }
{
    let pages = image_of(alloc, blocks)?;
    let bytes = pages.to_bytes(alloc)?;
    image.copy_from_slice(bytes.as_slice());
    Ok(())
}
