//! The image of blocks of any kind, each of which is read once.

ghost use Rattle.std.specs.Prelude.{◌≡◌, ◌≤◌, length, map, true, IfOk};
ghost use Rattle.vm_page.specs.Sizes.{IsSize};
ghost use Rattle.vm_image.specs.File.{most_pages};
ghost use Rattle.vm_image.specs.Reading.{ReadsBlocks, held_words};

use crate::image::Image;
use std::alloc::{AllocError, Global};
use thiserror::Error;
use vm_block::PageBlock;
use vm_page::{Failed, PageBuf};

/// Why blocks were not read into an image.
#[derive(Clone, Copy, Debug, PartialEq, Eq, Error)]
pub enum BlocksFault {
    /// The page whose block's read failed. The blocks behind it were not read.
    #[error("the read of page {pid} failed")]
    Failed { pid: u32 },
    #[error("out of memory")]
    Memory,
}

/// Reads blocks, as many as a file has pages of `N` words, each once and in order: a page for each, with the words that it holds where blocks tell. It ends
/// at the first read that fails. For want of memory none is read.
pub fn read_blocks<const N: usize, B: PageBlock<N>>(
    alloc: Global,
    blocks: &mut [B],
) -> Result<Image<N>, BlocksFault>
    requires sized { IsSize N }
    requires some { 2 ≤ length blocks.old }
    requires most { length blocks.old ≤ most_pages N }
    ensures count { IfOk result (λ image. length image ≡ length blocks.old) }
    ensures words { B.tells ≡ true → IfOk result (λ image. image ≡ held_words (map B.stored blocks.old)) }
    ensures blocks { ReadsBlocks B.tells (map B.stored blocks.old) (map B.stored blocks.new) result }
{
    let mut pages = match Vec::with_capacity(alloc, blocks.len()) {
        Ok(pages) => pages,
        Err(AllocError) => return Err(BlocksFault::Memory),
    };
    for p in 0..blocks.len() {
        let mut page = PageBuf::zero();
        match blocks[p].read(&mut page) {
            Ok(()) => pages.push_reserved(page),
            Err(Failed) => return Err(BlocksFault::Failed { pid: p as u32 }),
        }
    }
    Ok(Image { pages })
}
