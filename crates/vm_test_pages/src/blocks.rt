//! Blocks of pages that are in use.
ghost use Rattle.std.specs.Prelude.{◌<◌, ◌≡◌, ◌≤◌, false, IfOk, length, map, ℕ};
ghost use Rattle.vm_page.specs.{Pages.all_zero, Pages.page_at, Sizes.IsSize};
ghost use Rattle.vm_rule.specs.Prelude.{block_words, stored_of};

use std::alloc::Global;
use std::test::Fail;
use vm_block::MemBlock;
use vm_page::PageBuf;

/// A page that is in use: its second word is 1, and the others are 0.
pub fn used_page<const N: usize>() -> PageBuf<N>
    requires sized { IsSize N }
    ensures { all_zero result ≡ false }
{
    let mut page = PageBuf::zero();
    page.set(1, 1);
    page
}

/// Blocks of so many pages (0 to 65536) that are in use, which answer every call.
pub fn used_pages<const N: usize>(alloc: Global, pages: u32) -> Result<Vec<MemBlock<N>>, Fail>
    requires sized { IsSize N }
    requires pages { pages ≤ 65536 }
    ensures count { IfOk result (λ blocks. length blocks.items ≡ pages) }
    ensures used { IfOk result (λ blocks. (p : ℕ) → p < length (block_words (map stored_of blocks.items)) → all_zero (page_at (block_words (map stored_of blocks.items)) p) ≡ false) }
{
    if pages == 0 {
        return Ok(Vec::new(alloc));
    }
    let mut blocks = used_pages(alloc, pages - 1)?;
    blocks.push(MemBlock::new(alloc, used_page(), &[])?)?;
    Ok(blocks)
}
