//! The workers on a tree with words as keys, side by side.

ghost use Rattle.std.specs.Prelude.{◌*◌, ◌<◌, ◌≡◌, ◌≤◌, IfErr, IfOk, length};
ghost use Rattle.vm_rule.specs.Prelude.{HoldsNoPage, IsWhole};
ghost use Rattle.vm_step.specs.Prelude.{GoesOn, IsReadyOn, view};
ghost use Rattle.vm_calls.specs.TreeCalls.{word_calls};
ghost use Rattle.vm_drive.specs.Crews.{AllWorked, AreAtHome, AreIdle, HasWorked, IsIdle, share_of};
ghost use Rattle.vm_drive.specs.Drives.{AreAskable, AreFew, IsDrivenInto, items_of};
ghost use Rattle.vm_drive.specs.{Holds.list_at, Lists.HaveRoom, Rooms.RoomFor, Rooms.SpansFor};

use crate::crew::{DrivenInto, cap_for, gather, hire, places_for};
use crate::memory::spans_for;
use std::alloc::{AllocError, Global};
use std::sync::Wait;
use std::thread;
use std::thread::Threads;
use vm_block::PageBlock;
use vm_calls::answers::Answers;
use vm_calls::gate::Gate;
use vm_calls::kind::{OfSize, TreeOf, WordKeys};
use vm_calls::pool::Pool;
use vm_calls::worker::{Worker, work};
use vm_event::Memory;
use vm_map::call::Call;
use vm_map::span::Span;
use vm_rule::words::Pass;

/// Makes the lists' calls, one worker for each list, side by side: 1 to 64 lists of at most 1,000,000 calls each, eight frames for each. The
/// pass has all parts and holds no page, and has a fresh part for each list. Afterwards it has all parts again, and knows what the workers did.
/// Where there is no memory, no call was made, and the pass is as it was. Each list has something that keeps its answers, in the lists' order:
/// it stands for no answer yet, and has room for one to each of the list's calls, and for a window or a range's pairs to each that asks for them.
pub fn drive_into<
    S: OfSize<N> + Sync,
    R: Threads + Wait + Sync,
    B: PageBlock<N> + Send + Sync,
    G: Gate + Sync,
    A: Answers + Send + Drop,
    const N: usize,
>(
    rt: &R,
    alloc: Global,
    pool: &Pool<TreeOf<WordKeys<S, N>>, B, N>,
    pass: &mut Pass<TreeOf<WordKeys<S, N>>>,
    lists: &[Vec<Call>],
    gate: &G,
    rooms: Vec<A>,
) -> Result<DrivenInto<A>, Memory>
    requires ready { IsReadyOn pool.now.words B.tells pass.old }
    requires whole { IsWhole (view pass.old) }
    requires holds { HoldsNoPage (view pass.old) }
    requires fresh { length lists.now ≤ length (view pass.old).fresh }
    requires lists { (1 ≤ length lists.now) × (length lists.now ≤ 64) }
    requires few { AreFew (items_of lists.now) }
    requires askable { AreAskable (items_of lists.now) }
    requires frames { 8 * length lists.now ≤ pool.now.words.frames }
    requires pages { 1 ≤ pool.now.words.table.shared.key.pages }
    requires rooms { HaveRoom A.keeps (RoomFor A.room) rooms.items (items_of lists.now) }
    ensures goes { GoesOn pool.now.words B.tells pass.old pass.new }
    ensures driven { IfOk result (λ driven. IsDrivenInto (word_calls N) A.keeps B.tells (items_of lists.now) driven.kept.items (view pass.old) (view pass.new)) }
    ensures memory { IfErr result (λ _. pass.new ≡ pass.old) }
{
    let (workers, kept) = match places_for(alloc, lists.len()) {
        Ok(places) => places,
        Err(AllocError) => return Err(Memory),
    };
    let spans = match spans_for::<S, N>(alloc, lists) {
        Ok(spans) => spans,
        Err(AllocError) => return Err(Memory),
    };
    let cap = cap_for(pool.words.frames, lists.len());
    let mut workers = hire(pool, pass, cap, rooms, spans, workers);
    work_all(rt, pool, gate, lists, workers.as_mut_slice());
    Ok(gather(pool, pass, workers, kept))
}

// Makes each worker's calls, in as many threads as there are workers.
fn work_all<
    S: OfSize<N> + Sync,
    R: Threads + Wait + Sync,
    B: PageBlock<N> + Send + Sync,
    G: Gate + Sync,
    A: Answers + Send,
    const N: usize,
>(
    rt: &R,
    pool: &Pool<TreeOf<WordKeys<S, N>>, B, N>,
    gate: &G,
    lists: &[Vec<Call>],
    workers: &mut [Worker<TreeOf<WordKeys<S, N>>, A, Vec<Span>>],
)
    requires lists { (1 ≤ length lists.now) × (length lists.now ≤ 64) }
    requires askable { AreAskable (items_of lists.now) }
    requires idle { AreIdle A.keeps (RoomFor A.room) (SpansFor N) pool.now.words.table.shared.key B.tells pool.now.words.table.shared.table_id (items_of lists.now) workers.old }
    requires homes { AreAtHome 0 (share_of pool.now.words.frames (length lists.now)) workers.old }
    ensures { AllWorked (word_calls N) A.keeps pool.now.words.table.shared.key B.tells pool.now.words.table.shared.table_id (items_of lists.now) workers.old workers.new }
{
    thread::for_each_mut(
        rt,
        workers,
        lists.len(),
        &|i: usize, worker: &mut Worker<TreeOf<WordKeys<S, N>>, A, Vec<Span>>|
            requires inside { (i < length lists.now) × (length lists.now ≤ 64) }
            requires askable { AreAskable (items_of lists.now) }
            requires idle { IsIdle A.keeps (RoomFor A.room) (SpansFor N) pool.now.words.table.shared.key B.tells pool.now.words.table.shared.table_id (list_at (items_of lists.now) i) worker.old }
            ensures { HasWorked (word_calls N) A.keeps pool.entry.now.words.table.shared.key B.tells pool.entry.now.words.table.shared.table_id (list_at (items_of lists.entry.now) i) worker.old worker.new }
        { work(rt, pool, gate, i as u32, lists[i].as_slice(), worker) },
    );
}
