// The pages of a group, which the pass has under write-back, are written, each where it is dirty.
ghost use Rattle.std.specs.Prelude.{◌+◌, ◌≡◌, ◌≤◌, IfErr, IfOk};
ghost use Rattle.vm_page.specs.Sizes.{IsSize};
ghost use Rattle.vm_step.specs.Prelude.{GoesOn, IsReadyOn, view};
ghost use Rattle.vm_group_evict.specs.Saving.{AreUnderWriteBack, IsGroupSaved, IsGroupUnsaved};

use vm_block::PageBlock;
use vm_evict::write_where_dirty;
use vm_group_guard::MOST_PAGES;
use vm_owner::Owner;
use vm_rule::words::{Pass, Words};

/// The page whose write failed, the count of its fault, and how many pages were written before it.
#[derive(Clone, Copy)]
pub struct Failure {
    pub page: u32,
    pub count: u64,
    pub written: u32,
}

/// Writes so many pages, each where it is dirty, up to one whose write fails. It answers how many were written.
pub(crate) fn save_pages<U: Owner, B: PageBlock<N>, const N: usize>(
    words: &Words<U, B>,
    pass: &mut Pass<U>,
    head: u32,
    size: usize,
) -> Result<u32, Failure>
    requires ready { IsReadyOn words.now B.tells pass.old }
    requires sized { IsSize N }
    requires size { N ≡ words.now.table.shared.key.size }
    requires inside { head + size ≤ words.now.table.shared.key.pages }
    requires few { size ≤ MOST_PAGES }
    requires under { AreUnderWriteBack head size (view pass.old) }
    ensures goes { GoesOn words.now B.tells pass.old pass.new }
    ensures saved { IfOk result (λ written. IsGroupSaved head size written (view pass.old) (view pass.new)) }
    ensures failed { IfErr result (λ failure. IsGroupUnsaved head size failure (view pass.old) (view pass.new)) }
{
    let mut written = 0;
    for k in 0..size {
        let page = head + k as u32;
        let wrote = match write_where_dirty::<U, B, N>(words, pass, page) {
            Ok(wrote) => wrote,
            Err(count) => {
                return Err(Failure {
                    page,
                    count,
                    written,
                });
            }
        };
        if wrote {
            written += 1;
        }
    }
    Ok(written)
}
