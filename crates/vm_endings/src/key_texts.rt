//! The texts of what workers' calls with byte keys came to: replies, rows, or the page that could not be written, and the device's counters.

ghost use Rattle.std.specs.Prelude.{◌++◌, ◌≡◌, ◌≤◌, IfOk, length, List, Result};
ghost use Rattle.vm_bytes_replies.specs.from_vm_bytes_calls.KeyAnswers.{KeepsKeyAnswers};
ghost use Rattle.vm_bytes_form.specs.KeyMap.{ranks_of};
ghost use Rattle.vm_bytes_laws.specs.declared.call.KeyReply.{KeyReply};
ghost use Rattle.vm_bytes_replies.specs.KeyLines.{AreAnswered, key_worker_lines};
ghost use Rattle.vm_bytes_text.specs.KeyTexts.{key_rows_text};
ghost use Rattle.vm_serve.specs.from_vm_drive.{Drives.AreFew, Drives.items_of, Lists.AreKept};
ghost use Rattle.vm_serve.specs.from_vm_tree_rule.declared_fault_TreeFault.{TreeFault};
ghost use Rattle.vm_script.specs.Texts.{unflushed_line};
ghost use Rattle.vm_endings.specs.Replies.{counters_of};

use std::alloc::{AllocError, Global};
use vm_bytes_file::KeyPair;
use vm_bytes_laws::call::KeyCall;
use vm_bytes_replies::add_key_replies;
use vm_bytes_replies::serve::KeyReplies;
use vm_bytes_text::add_key_rows;
use vm_owner::Owner;
use vm_script::text::{counters_text, unflushed_text};
use vm_serve::pool::Ended;

/// The text of the replies, of the rows and of the counters.
pub fn key_whole_text<U: Owner>(
    alloc: Global,
    lists: &[Vec<KeyCall>],
    replies: &[KeyReplies],
    rows: &[KeyPair],
    ended: &Ended<U>,
    evicted: u64,
) -> Result<Vec<u8>, AllocError>
    requires few { AreFew (items_of lists.now) }
    requires workers { length lists.now ≤ 64 }
    requires answered { AreAnswered (items_of lists.now) replies.now }
    ensures { (told : List (List (Result KeyReply TreeFault))) → AreKept KeepsKeyAnswers replies.now told
        → IfOk result (λ v. v.items ≡ key_worker_lines 0 (items_of lists.now) told ++ key_rows_text (ranks_of rows.now) ++ counters_of ended.now evicted) }
{
    let mut out = Vec::new(alloc);
    add_key_replies(alloc, lists, replies, &mut out)?;
    add_key_rows(alloc, rows, &mut out)?;
    counters_text(
        alloc,
        ended.reads(),
        ended.writes(),
        ended.faults(),
        evicted,
        &mut out,
    )?;
    Ok(out)
}

/// The text of the replies, of a page that could not be written and of the counters.
pub fn key_cut_text<U: Owner>(
    alloc: Global,
    lists: &[Vec<KeyCall>],
    replies: &[KeyReplies],
    page: u32,
    ended: &Ended<U>,
    evicted: u64,
) -> Result<Vec<u8>, AllocError>
    requires few { AreFew (items_of lists.now) }
    requires workers { length lists.now ≤ 64 }
    requires answered { AreAnswered (items_of lists.now) replies.now }
    ensures { (told : List (List (Result KeyReply TreeFault))) → AreKept KeepsKeyAnswers replies.now told
        → IfOk result (λ v. v.items ≡ key_worker_lines 0 (items_of lists.now) told ++ unflushed_line page ++ counters_of ended.now evicted) }
{
    let mut out = Vec::new(alloc);
    add_key_replies(alloc, lists, replies, &mut out)?;
    unflushed_text(alloc, page, &mut out)?;
    counters_text(
        alloc,
        ended.reads(),
        ended.writes(),
        ended.faults(),
        evicted,
        &mut out,
    )?;
    Ok(out)
}
