//! A window of a tree with byte keys, with its reply alone.
ghost use Rattle.std.specs.Prelude.{◌≡◌, ◌≤◌, IfErr, IfOk, None};
ghost use Rattle.vm_map.specs.declared.call.Call.TheVariants.{Window as ForWindow};
ghost use Rattle.vm_bytes_form.specs.Bytes.{bytes};
ghost use Rattle.vm_bytes_form.specs.Strings.{rank};
ghost use Rattle.vm_bytes_laws.specs.Plain.{plain_reply, plain_said};
ghost use Rattle.vm_step.specs.Prelude.{AreHeld, GoesOn, IsReadyOn, view};
ghost use Rattle.vm_tree_del.specs.from_vm_tree_read.Reads.{IsOfKind};
ghost use Rattle.vm_tree_del.specs.from_vm_tree_read.Waiting.{IsFaulted, IsReplied, LosesNone};

use crate::keys::BytesTree;
use std::sync::Wait;
use vm_block::PageBlock;
use vm_bytes_laws::call::KeyReply;
use vm_exmap::Interface;
use vm_guard::rule::Pass;
use vm_map::key::Key;
use vm_pool::Pool;
use vm_tree_del::tree_read::window_said;
use vm_tree_del::tree_rule::TreeFault;

/// The first pairs from the key `start` on, at most `most` (1 or more) of them and at most those of one leaf.
pub fn window<R: Wait, B: PageBlock<512>>(
    rt: &R,
    pool: &Pool<BytesTree, B, 512>,
    pass: &mut Pass<BytesTree>,
    iface: &mut Interface,
    start: &Key,
    most: u32,
) -> Result<KeyReply, TreeFault>
    requires ready { IsReadyOn pool.now.words B.tells pass.old }
    requires pages { 1 ≤ pool.now.words.table.shared.key.pages }
    requires most { 1 ≤ most }
    requires home { (view pass.old).out ≡ None }
    requires frames { AreHeld iface.old.frames (view pass.old) }
    ensures goes { GoesOn pool.now.words B.tells pass.old pass.new }
    ensures held { AreHeld iface.new.frames (view pass.new) }
    ensures iface { (iface.new.home ≡ iface.old.home) × (iface.new.cap ≡ iface.old.cap) }
    ensures lost { LosesNone iface.old.frames (view pass.old) iface.new.frames (view pass.new) }
    ensures ok { IfOk result (λ reply. IsReplied plain_said bytes (record { call = ForWindow (rank start.now) most; reply = plain_reply reply }) (view pass.old) (view pass.new)) }
    ensures kind { IfOk result (λ reply. IsOfKind (ForWindow (rank start.now) most) (plain_reply reply)) }
    ensures err { IfErr result (λ fault. IsFaulted bytes (rank start.now) fault (view pass.old) (view pass.new)) }
{
    match window_said(rt, pool, pass, iface, start, most) {
        Ok(said) => Ok(said.reply),
        Err(fault) => Err(fault),
    }
}
