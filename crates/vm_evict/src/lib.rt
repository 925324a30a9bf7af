//! Eviction and write-back: candidates are written where they are dirty, taken out of their frames and released as evicted, in phases, so that
//! their frames come free in a batch; and all dirty pages can be written while they stay resident.
#![tactic(auto)]

ghost use Rattle.std.specs.Prelude.{◌≡◌, None};
ghost use Rattle.vm_page.specs.Sizes.{IsSize};
ghost use Rattle.vm_supply.specs.from_vm_step.Prelude.{AreCandidates, GoesOn, IsReadyOn, view};
ghost use Rattle.vm_evict.specs.Evictions.{IsBatch};

mod batch;
pub mod candidate;
mod flushing;
pub mod report;
mod write;

use batch::{pass_over, report_of, waiting};
use candidate::Phase;
pub use flushing::{Flushed, flush};
use report::Evicted;
use vm_block::PageBlock;
use vm_owner::Ungrouped;
use vm_rule::words::{Pass, Words};
use vm_supply::step::Candidates;
pub use write::write_where_dirty;

/// Evicts candidates, in phases: dirty ones are shared from their mark and written; clean ones are locked exclusively; the written ones become
/// exclusive from one share; all are taken out of their frames; all are released as evicted. A page whose write fails stays resident and dirty.
/// The frames are those of the evicted pages, in their order.
pub fn evict<U: Ungrouped, B: PageBlock<N>, const N: usize>(
    words: &Words<U, B>,
    pass: &mut Pass<U>,
    candidates: &Candidates,
) -> Evicted
    requires ready { IsReadyOn words.now B.tells pass.old }
    requires sized { IsSize N }
    requires size { N ≡ words.now.table.shared.key.size }
    requires home { (view pass.old).out ≡ None }
    requires list { AreCandidates words.now.table.shared.key.pages candidates.now.list.items }
    ensures goes { GoesOn words.now B.tells pass.old pass.new }
    ensures evicted { IsBatch candidates.now.list.items candidates.now.looks (view pass.old) (view pass.new) result.report result.frames }
{
    let list = candidates.list.as_slice();
    let mut stages = waiting();
    pass_over::<U, B, N>(words, pass, Phase::Save, list, &mut stages);
    pass_over::<U, B, N>(words, pass, Phase::Lock, list, &mut stages);
    pass_over::<U, B, N>(words, pass, Phase::Raise, list, &mut stages);
    pass_over::<U, B, N>(words, pass, Phase::Empty, list, &mut stages);
    pass_over::<U, B, N>(words, pass, Phase::Leave, list, &mut stages);
    report_of(list, &stages, candidates.looks)
}
