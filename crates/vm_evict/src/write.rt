// A dirty page is written to its block, and made clean; which frame it stands in, by its translation word.
ghost use Rattle.std.specs.Prelude.{◌<◌, ◌≡◌, ◌≤◌, length, None, Some};
ghost use Rattle.vm_page.specs.Sizes.{IsSize};
ghost use Rattle.vm_rule.specs.Prelude.{frame_read_by, last_of, seat_of};
ghost use Rattle.vm_supply.specs.from_vm_step.Prelude.{GoesOn, IsReadyOn, view};
ghost use Rattle.vm_evict.specs.Writes.{EndsWrite, IsCopied, IsDirtyFrame, IsFoundToWrite, IsUnderWriteBack, WritesBack};

use vm_block::{Block, PageBlock};
use vm_event::TransWord;
use vm_owner::Owner;
use vm_page::PageBuf;
use vm_rule::words::{Pass, Words};
use vm_supply::step::{frame_place, load_at, set_clean, tload};
use vm_supply::{block_home, block_out, raise};

/// The frame of a dirty page, by its translation word.
pub(crate) fn dirty_frame(word: u64) -> Option<u32>
    ensures { IsDirtyFrame word result }
{
    if TransWord::dirty(word) {
        TransWord::frame(word)
    } else {
        None
    }
}

/// The words of a page that the pass shares, from its frame.
fn copy_page<U: Owner, B: Block, const N: usize>(
    words: &Words<U, B>,
    pass: &mut Pass<U>,
    p: u32,
    frame: u32,
) -> PageBuf<N>
    requires ready { IsReadyOn words.now B.tells pass.old }
    requires page { (p < words.now.table.shared.key.pages) × (frame < words.now.table.shared.key.frames) }
    requires frame { frame_read_by (view pass.old) p ≡ Some frame }
    requires shared { (1 ≤ (seat_of (view pass.old) p).shares) × ((seat_of (view pass.old) p).reading ≡ None) }
    requires sized { IsSize N }
    requires size { (N ≡ words.now.table.shared.key.size) × (length (last_of (view pass.old) p).words ≡ (view pass.old).start.size) }
    ensures goes { GoesOn words.now B.tells pass.old pass.new }
    ensures copied { IsCopied p result (view pass.old) (view pass.new) }
{
    let mut page = PageBuf::<N>::zero();
    let first = frame_place(words, frame);
    for i in 0..N {
        page.set(i, load_at(words, pass, p, frame, first, i));
    }
    page
}

/// Writes a dirty page to its block and makes it clean: the pass has it under write-back, and a load found it in this frame. Where the write
/// fails, the page stays as it is, and the answer is the count of the fault, which the fault word is raised to.
fn write_back<U: Owner, B: PageBlock<N>, const N: usize>(
    words: &Words<U, B>,
    pass: &mut Pass<U>,
    p: u32,
    frame: u32,
) -> Result<(), u64>
    requires ready { IsReadyOn words.now B.tells pass.old }
    requires page { (p < words.now.table.shared.key.pages) × (frame < words.now.table.shared.key.frames) }
    requires sized { IsSize N }
    requires size { N ≡ words.now.table.shared.key.size }
    requires legal { (v : _) × IsFoundToWrite p frame v (view pass.old) }
    ensures goes { GoesOn words.now B.tells pass.old pass.new }
    ensures written { (v : _) → IsFoundToWrite p frame v (view pass.old) → WritesBack p v (view pass.new) result }
{
    let mut block = block_out(words, pass, p);
    let page = copy_page::<U, B, N>(words, pass, p, frame);
    let wrote = block.write(&page);
    let count = block.faults();
    block_home(words, pass, p, block);
    match wrote {
        Ok(()) => {
            set_clean(words, pass, p, frame);
            Ok(())
        }
        Err(_) => {
            raise(words, pass, p, count);
            Err(count)
        }
    }
}

/// Writes a page, which the pass has under write-back, where it is dirty. It answers whether it was, or the count of the fault.
pub fn write_where_dirty<U: Owner, B: PageBlock<N>, const N: usize>(
    words: &Words<U, B>,
    pass: &mut Pass<U>,
    p: u32,
) -> Result<bool, u64>
    requires ready { IsReadyOn words.now B.tells pass.old }
    requires page { p < words.now.table.shared.key.pages }
    requires sized { IsSize N }
    requires size { N ≡ words.now.table.shared.key.size }
    requires legal { IsUnderWriteBack p (view pass.old) }
    ensures goes { GoesOn words.now B.tells pass.old pass.new }
    ensures written { EndsWrite p (view pass.old) (view pass.new) result }
{
    let Some(frame) = dirty_frame(tload(words, pass, p)) else {
        return Ok(false);
    };
    match write_back::<U, B, N>(words, pass, p, frame) {
        Ok(()) => Ok(true),
        Err(count) => Err(count),
    }
}
