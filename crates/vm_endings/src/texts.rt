//! The texts of what workers' calls came to: replies, rows, or the page that could not be written, and the device's counters.

ghost use Rattle.std.specs.List.{AllByRecursion};
ghost use Rattle.std.specs.Prelude.{◌++◌, ◌≡◌, ◌≤◌, IfOk, length};
ghost use Rattle.vm_serve.specs.from_vm_calls.Compact.{all_replies, HasContents};
ghost use Rattle.vm_serve.specs.from_vm_drive.Drives.{AreFew, items_of};
ghost use Rattle.vm_script.specs.Texts.{rows_text, unflushed_line, worker_replies};
ghost use Rattle.vm_endings.specs.Replies.{all_lines, AreMatched, counters_of};

use crate::replies::{add_replies, add_rows};
use std::alloc::{AllocError, Global};
use vm_map::call::{Call, Pair};
use vm_owner::Owner;
use vm_script::text::{counters_text, unflushed_text};
use vm_serve::drive::Replies;
use vm_serve::pool::Ended;

/// The text of the replies, of the rows and of the counters.
pub fn whole_text<U: Owner>(
    alloc: Global,
    lists: &[Vec<Call>],
    replies: &[Replies],
    rows: &[Pair],
    ended: &Ended<U>,
    evicted: u64,
) -> Result<Vec<u8>, AllocError>
    requires few { AreFew (items_of lists.now) }
    requires workers { length lists.now ≤ 64 }
    requires matched { AreMatched (items_of lists.now) (all_replies replies.now) }
    requires contents { AllByRecursion HasContents replies.now }
    ensures { IfOk result (λ v. v.items ≡ worker_replies 0 (all_lines (items_of lists.now) (all_replies replies.now)) ++ rows_text rows.now ++ counters_of ended.now evicted) }
{
    let mut out = Vec::new(alloc);
    add_replies(alloc, lists, replies, &mut out)?;
    add_rows(alloc, rows, &mut out)?;
    counters_text(
        alloc,
        ended.reads(),
        ended.writes(),
        ended.faults(),
        evicted,
        &mut out,
    )?;
    Ok(out)
}

/// The text of the replies, of a page that could not be written and of the counters.
pub fn cut_text<U: Owner>(
    alloc: Global,
    lists: &[Vec<Call>],
    replies: &[Replies],
    page: u32,
    ended: &Ended<U>,
    evicted: u64,
) -> Result<Vec<u8>, AllocError>
    requires few { AreFew (items_of lists.now) }
    requires workers { length lists.now ≤ 64 }
    requires matched { AreMatched (items_of lists.now) (all_replies replies.now) }
    requires contents { AllByRecursion HasContents replies.now }
    ensures { IfOk result (λ v. v.items ≡ worker_replies 0 (all_lines (items_of lists.now) (all_replies replies.now)) ++ unflushed_line page ++ counters_of ended.now evicted) }
{
    let mut out = Vec::new(alloc);
    add_replies(alloc, lists, replies, &mut out)?;
    unflushed_text(alloc, page, &mut out)?;
    counters_text(
        alloc,
        ended.reads(),
        ended.writes(),
        ended.faults(),
        evicted,
        &mut out,
    )?;
    Ok(out)
}
