// The eviction of several groups.
ghost use Rattle.std.specs.Prelude.{[], ◌++◌, ◌+◌, ◌*◌, ◌≡◌, ◌≤◌, length, None};
ghost use Rattle.vm_page.specs.Sizes.{IsSize};
ghost use Rattle.vm_rule.specs.Prelude.{Each};
ghost use Rattle.vm_step.specs.Prelude.{GoesOn, IsReadyOn, view};
ghost use Rattle.vm_evict.specs.Stages.{none_of};
ghost use Rattle.vm_group_evict.specs.Groups.{AreEvicted, IsHeadToEvict, counted_end, frames_of};
ghost use Rattle.vm_group_evict.specs.Room.{HasRoomForGroup};

use crate::evict::{GroupEnd, evict_group};
use vm_block::PageBlock;
use vm_evict::report::{Evicted, Report};
use vm_owner::Owner;
use vm_rule::words::{Pass, Words};
use vm_step::{Batch, Candidates, Looks};

/// How many groups are evicted at most: as many as have room for their frames in a batch.
pub const MOST_GROUPS: usize = 8;

/// Evicts groups of so many pages each, one behind another, at most eight. It counts heads as freed, failed and lost, and pages as written; the frames
/// are those of the groups evicted, in their order.
pub fn evict_groups<U: Owner, B: PageBlock<N>, const N: usize>(
    words: &Words<U, B>,
    pass: &mut Pass<U>,
    size: usize,
    candidates: &Candidates,
) -> Evicted
    requires ready { IsReadyOn words.now B.tells pass.old }
    requires sized { IsSize N }
    requires size { N ≡ words.now.table.shared.key.size }
    requires home { (view pass.old).out ≡ None }
    requires few { length candidates.now.list.items ≤ MOST_GROUPS }
    requires list { Each (IsHeadToEvict words.now.table.shared.key size) candidates.now.list.items }
    ensures goes { GoesOn words.now B.tells pass.old pass.new }
    ensures evicted { AreEvicted size candidates.now.list.items candidates.now.looks (view pass.old) (view pass.new) result }
{
    let list = candidates.list.as_slice();
    let mut evicted = nothing(candidates.looks);
    for i in 0..list.len() {
        let (head, word) = list[i];
        let end = evict_group::<U, B, N>(words, pass, head, size, word);
        count(&mut evicted, end);
    }
    evicted
}

/// Nothing was evicted yet, of the candidates that these looks found.
fn nothing(looks: Looks) -> Evicted
    ensures { result ≡ record { frames = []; report = none_of looks } }
{
    Evicted {
        frames: Batch::new(),
        report: Report {
            freed: 0,
            written: 0,
            failed: 0,
            lost: 0,
            first_failed: None,
            looks,
        },
    }
}

/// Counts what became of a group, and takes its frames.
fn count(evicted: &mut Evicted, end: GroupEnd)
    requires { HasRoomForGroup evicted.old end }
    ensures { evicted.new ≡ record { frames = evicted.old.frames ++ frames_of end; report = counted_end evicted.old.report end } }
{
    let report = &mut evicted.report;
    match end {
        GroupEnd::Freed { frames, written } => {
            report.freed += 1;
            report.written += written;
            evicted.frames.append(frames.as_slice());
        }
        GroupEnd::Failed(failure) => {
            report.failed += 1;
            report.written += failure.written;
            report.first_failed = report.first_failed.or(Some((failure.page, failure.count)));
        }
        GroupEnd::Lost { written } => {
            report.lost += 1;
            report.written += written;
        }
    }
}
