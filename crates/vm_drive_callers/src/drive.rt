//! Workers over a tree of 64 words a page, whose answers are kept as `Replies`; and what tests name of `vm_drive` through this crate.
ghost use Rattle.std.specs.Prelude.{◌*◌, ◌≡◌, ◌≤◌, IfErr, IfOk, length};
ghost use Rattle.vm_rule.specs.Prelude.{HoldsNoPage, IsWhole};
ghost use Rattle.vm_step.specs.Prelude.{GoesOn, IsReadyOn, view};
ghost use Rattle.vm_serve.specs.from_vm_drive.Drives.{AreAskable, AreFew, items_of};

use std::alloc::{AllocError, Global};
use std::sync::Wait;
use std::thread::Threads;
use vm_block::PageBlock;
use vm_event::Memory;
use vm_map::call::Call;
use vm_page::WORDS;
use vm_rule::words::Pass;
use vm_serve::drive::{Replies, drive_into, rooms_for};
pub use vm_serve::drive::{DrivenInto, Gate, NoGate, Short};
use vm_serve::pool::Pool;
use vm_serve::tree_rule::Tree;

/// `drive_into`, with room for the answers of all lists.
pub fn drive<R: Threads + Wait + Sync, B: PageBlock<WORDS> + Send + Sync, G: Gate + Sync>(
    rt: &R,
    alloc: Global,
    pool: &Pool<Tree, B, WORDS>,
    pass: &mut Pass<Tree>,
    lists: &[Vec<Call>],
    gate: &G,
) -> Result<DrivenInto<Replies>, Memory>
    requires ready { IsReadyOn pool.now.words B.tells pass.old }
    requires whole { IsWhole (view pass.old) }
    requires holds { HoldsNoPage (view pass.old) }
    requires fresh { length lists.now ≤ length (view pass.old).fresh }
    requires lists { (1 ≤ length lists.now) × (length lists.now ≤ 64) }
    requires few { AreFew (items_of lists.now) }
    requires askable { AreAskable (items_of lists.now) }
    requires frames { 8 * length lists.now ≤ pool.now.words.frames }
    requires pages { 1 ≤ pool.now.words.table.shared.key.pages }
    ensures goes { GoesOn pool.now.words B.tells pass.old pass.new }
    ensures holds { IfOk result (λ _. HoldsNoPage (view pass.new)) }
    ensures memory { IfErr result (λ _. pass.new ≡ pass.old) }
{
    let rooms = match rooms_for(alloc, lists) {
        Ok(rooms) => rooms,
        Err(AllocError) => return Err(Memory),
    };
    drive_into(rt, alloc, pool, pass, lists, gate, rooms)
}
