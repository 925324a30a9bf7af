//! The workers on a tree with byte keys, side by side.

ghost use Rattle.std.specs.Prelude.{◌*◌, ◌<◌, ◌≡◌, ◌≤◌, IfErr, IfOk, length};
ghost use Rattle.vm_rule.specs.Prelude.{HoldsNoPage, IsWhole};
ghost use Rattle.vm_step.specs.Prelude.{GoesOn, IsReadyOn, view};
ghost use Rattle.vm_bytes_calls.specs.{KeyAnswers.HasKeyRoom, KeyAnswers.KeepsKeyAnswers, KeyCalls.key_calls};
ghost use Rattle.vm_drive.specs.Crews.{AllWorked, AreAtHome, AreIdle, HasWorked, IsIdle, share_of};
ghost use Rattle.vm_drive.specs.Drives.{AreFew, IsDrivenInto, items_of};
ghost use Rattle.vm_drive.specs.{Holds.list_at, Lists.HaveRoom};
ghost use Rattle.vm_bytes_drive.specs.Drives.{AreKeyAskable, NeedsNone};

use std::alloc::{AllocError, Global};
use std::sync::Wait;
use std::thread;
use std::thread::Threads;
use vm_block::PageBlock;
use vm_bytes_calls::BytesTree;
use vm_bytes_calls::answers::KeyReplies;
use vm_bytes_calls::worker::{KeyWorker, work};
use vm_bytes_laws::call::KeyCall;
use vm_drive::crew::{DrivenInto, cap_for, gather, hire, places_for};
use vm_drive::gate::Gate;
use vm_drive::pool::Pool;
use vm_event::Memory;
use vm_rule::words::Pass;

/// For each list, room for an answer to each of its calls, and for a window to each that asks for one.
pub fn rooms_for(alloc: Global, lists: &[Vec<KeyCall>]) -> Result<Vec<KeyReplies>, AllocError>
    ensures { IfOk result (λ rooms. HaveRoom KeepsKeyAnswers HasKeyRoom rooms.items (items_of lists.now)) }
{
    let mut rooms = Vec::with_capacity(alloc, lists.len())?;
    'lists: for calls in lists {
        let room = KeyReplies::room_for(alloc, calls.as_slice())?;
        rooms.push(room)?;
    }
    Ok(rooms)
}

// For each of so many workers the memory that its calls need beside that of its answers: none.
fn no_memory(alloc: Global, count: usize) -> Result<Vec<()>, AllocError>
    ensures { IfOk result (λ memories. length memories.items ≡ count) }
{
    let mut memories = Vec::with_capacity(alloc, count)?;
    'workers: for _worker in 0..count {
        memories.push(())?;
    }
    Ok(memories)
}

/// Makes the lists' calls, one worker for each list, side by side: 1 to 64 lists of at most 1,000,000 calls each, eight frames for each. The
/// pass has all parts and holds no page, and has a fresh part for each list. Afterwards it has all parts again, and knows what the workers did.
/// Where there is no memory, no call was made, and the pass is as it was. Each list has room for its answers, in the lists' order.
pub fn drive_into<R: Threads + Wait + Sync, B: PageBlock<512> + Send + Sync, G: Gate + Sync>(
    rt: &R,
    alloc: Global,
    pool: &Pool<BytesTree, B, 512>,
    pass: &mut Pass<BytesTree>,
    lists: &[Vec<KeyCall>],
    gate: &G,
    rooms: Vec<KeyReplies>,
) -> Result<DrivenInto<KeyReplies>, Memory>
    requires ready { IsReadyOn pool.now.words B.tells pass.old }
    requires whole { IsWhole (view pass.old) }
    requires holds { HoldsNoPage (view pass.old) }
    requires fresh { length lists.now ≤ length (view pass.old).fresh }
    requires lists { (1 ≤ length lists.now) × (length lists.now ≤ 64) }
    requires few { AreFew (items_of lists.now) }
    requires askable { AreKeyAskable (items_of lists.now) }
    requires frames { 8 * length lists.now ≤ pool.now.words.frames }
    requires pages { 1 ≤ pool.now.words.table.shared.key.pages }
    requires rooms { HaveRoom KeepsKeyAnswers HasKeyRoom rooms.items (items_of lists.now) }
    ensures goes { GoesOn pool.now.words B.tells pass.old pass.new }
    ensures driven { IfOk result (λ driven. IsDrivenInto key_calls KeepsKeyAnswers B.tells (items_of lists.now) driven.kept.items (view pass.old) (view pass.new)) }
    ensures memory { IfErr result (λ _. pass.new ≡ pass.old) }
{
    let (workers, kept) = match places_for(alloc, lists.len()) {
        Ok(places) => places,
        Err(AllocError) => return Err(Memory),
    };
    let memories = match no_memory(alloc, lists.len()) {
        Ok(memories) => memories,
        Err(AllocError) => return Err(Memory),
    };
    let cap = cap_for(pool.words.frames, lists.len());
    let mut workers = hire(pool, pass, cap, rooms, memories, workers);
    work_all(rt, pool, gate, lists, workers.as_mut_slice());
    Ok(gather(pool, pass, workers, kept))
}

// Makes each worker's calls, in as many threads as there are workers.
fn work_all<R: Threads + Wait + Sync, B: PageBlock<512> + Send + Sync, G: Gate + Sync>(
    rt: &R,
    pool: &Pool<BytesTree, B, 512>,
    gate: &G,
    lists: &[Vec<KeyCall>],
    workers: &mut [KeyWorker],
)
    requires lists { (1 ≤ length lists.now) × (length lists.now ≤ 64) }
    requires askable { AreKeyAskable (items_of lists.now) }
    requires idle { AreIdle KeepsKeyAnswers HasKeyRoom NeedsNone pool.now.words.table.shared.key B.tells pool.now.words.table.shared.table_id (items_of lists.now) workers.old }
    requires homes { AreAtHome 0 (share_of pool.now.words.frames (length lists.now)) workers.old }
    ensures { AllWorked key_calls KeepsKeyAnswers pool.now.words.table.shared.key B.tells pool.now.words.table.shared.table_id (items_of lists.now) workers.old workers.new }
{
    thread::for_each_mut(
        rt,
        workers,
        lists.len(),
        &|i: usize, worker: &mut KeyWorker|
            requires inside { (i < length lists.now) × (length lists.now ≤ 64) }
            requires askable { AreKeyAskable (items_of lists.now) }
            requires idle { IsIdle KeepsKeyAnswers HasKeyRoom NeedsNone pool.now.words.table.shared.key B.tells pool.now.words.table.shared.table_id (list_at (items_of lists.now) i) worker.old }
            ensures { HasWorked key_calls KeepsKeyAnswers pool.entry.now.words.table.shared.key B.tells pool.entry.now.words.table.shared.table_id (list_at (items_of lists.entry.now) i) worker.old worker.new }
        { work(rt, pool, gate, i as u32, lists[i].as_slice(), worker) },
    );
}
