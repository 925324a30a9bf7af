//! The pages of an image as blocks in memory, and back.

ghost use Rattle.std.specs.Prelude.{◌≡◌, ◌<◌, ◌≤◌, length, IfOk};
ghost use Rattle.vm_page.specs.Sizes.{IsSize};
ghost use Rattle.vm_image.specs.File.{most_pages};
ghost use Rattle.vm_image.specs.Blocks.{AreBlocksOf, numbers_for, pages_of_blocks};

use crate::image::Image;
use std::alloc::{AllocError, Global};
use vm_block::MemBlock;
use vm_page::{Memory, PageBuf};

/// An entry of a plan of failures: the call with this number on this page's block fails. An entry for a page that the
/// image lacks never acts.
#[derive(Clone, Copy)]
pub struct PlannedFault {
    pub page: u64,
    pub number: u64,
}

/// A block for each page, in the pages' order: it holds the page's words and fails the calls that the plan numbers for
/// that page.
pub fn blocks_of<const N: usize>(
    alloc: Global,
    image: &Image<N>,
    plan: &[PlannedFault],
) -> Result<Vec<MemBlock<N>>, Memory>
    ensures blocks { IfOk result (λ blocks. AreBlocksOf image.now plan.now blocks.items) }
    ensures count { IfOk result (λ blocks. length blocks.items ≡ length image.now) }
{
    let mut blocks = Vec::with_capacity(alloc, image.pages() as usize)?;
    for p in 0..image.pages() {
        let mut words = PageBuf::zero();
        words.copy_from(image.page(p));
        let numbers = numbers_for(alloc, plan, p)?;
        blocks.push(MemBlock::new(alloc, words, numbers.as_slice())?)?;
    }
    Ok(blocks)
}

// The numbers of a page's entries.
fn numbers_for(alloc: Global, plan: &[PlannedFault], page: u32) -> Result<Vec<u64>, AllocError>
    ensures { IfOk result (λ numbers. numbers.items ≡ numbers_for plan.now page) }
{
    let mut numbers = Vec::new(alloc);
    for fault in plan {
        if fault.page == page as u64 {
            numbers.push(fault.number)?;
        }
    }
    Ok(numbers)
}

/// The image of blocks, as many as a file has pages of `N` words: a page for each, with the words that it holds.
pub fn image_of<const N: usize>(alloc: Global, blocks: &[MemBlock<N>]) -> Result<Image<N>, Memory>
    requires sized { IsSize N }
    requires some { 2 ≤ length blocks.now }
    requires most { length blocks.now ≤ most_pages N }
    ensures { IfOk result (λ image. image ≡ pages_of_blocks blocks.now) }
{
    let mut pages = Vec::with_capacity(alloc, blocks.len())?;
    for block in blocks {
        let mut page = PageBuf::zero();
        page.copy_from(block.words());
        pages.push(page)?;
    }
    Ok(Image { pages })
}
