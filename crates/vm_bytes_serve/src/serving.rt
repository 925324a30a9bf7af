//! The calls are made on a pool over blocks of any kind, which is then flushed and closed. An image's pages are served as blocks in memory.

ghost use Rattle.std.specs.Prelude.{◌*◌, ◌≡◌, ◌≤◌, IfOk, length, List, map, ℕ};
ghost use Rattle.vm_tree_model.specs.Tree.{IsTree};
ghost use Rattle.vm_event.specs.Prelude.{MAX_VERSION};
ghost use Rattle.vm_serve.specs.from_vm_pool.Closing.{view_at_end};
ghost use Rattle.vm_serve.specs.from_vm_drive.Drives.{AreFew, items_of};
ghost use Rattle.vm_serve.specs.from_vm_drive.Lists.{HaveRoom};
ghost use Rattle.vm_serve.specs.Served.{MayServeOn};
ghost use Rattle.vm_bytes_form.specs.Bytes.{bytes};
ghost use Rattle.vm_bytes_history.specs.from_vm_bytes_calls.KeyAnswers.{HasKeyRoom, KeepsKeyAnswers};
ghost use Rattle.vm_bytes_history.specs.from_vm_bytes_drive.Drives.{AreKeyAskable};
ghost use Rattle.vm_bytes_serve.specs.KeyServing.{IsKeyServedInto, IsKeyServedOnInto};

use crate::strings::{asked_in_range, shown_in_range};
use std::alloc::Global;
use std::sync::Wait;
use std::thread::Threads;
use vm_block::{MemBlock, PageBlock};
use vm_bytes_history::drive::{BytesTree, KeyReplies, drive_into, rooms_for};
use vm_bytes_laws::call::KeyCall;
use vm_event::Memory;
use vm_image::{Image, PlannedFault, blocks_of};
use vm_serve::drive::{DrivenInto, Gate};
use vm_serve::pool::{Closed, Pool, Saved, Shape, flush_and_close};
use vm_serve::{ServedOn, shape_of};

/// What serving the calls came to.
pub type KeyServed<B> = ServedOn<BytesTree, KeyReplies, B>;

/// Makes the workers' calls on the image's tree, with so many frames, each page beginning at the first version, and with blocks that fail the
/// calls of the plan. Where there is no memory nothing is told.
pub fn serve<R: Threads + Wait + Sync, G: Gate + Sync>(
    rt: &R,
    alloc: Global,
    image: &Image<512>,
    plan: &[PlannedFault],
    first_version: u64,
    frames: u32,
    lists: &[Vec<KeyCall>],
    gate: &G,
) -> Result<KeyServed<MemBlock<512>>, Memory>
    requires tree { IsTree bytes image.now }
    requires plan { length plan.now ≤ 64 }
    requires version { first_version ≤ MAX_VERSION }
    requires frames { (64 ≤ frames) × (frames ≤ 65536) × (8 * length lists.now ≤ frames) }
    requires lists { (1 ≤ length lists.now) × (length lists.now ≤ 64) }
    requires few { AreFew (items_of lists.now) }
    requires askable { AreKeyAskable (items_of lists.now) }
    ensures served { IfOk result (λ s. IsKeyServedInto image.now plan.now (items_of lists.now) s.kept.items s.report s.blocks.items s.ended) }
    ensures version { IfOk result (λ s. (view_at_end s.ended).start.version ≡ first_version) }
    ensures frames { IfOk result (λ s. (view_at_end s.ended).start.frames ≡ frames) }
{
    let Ok(blocks) = blocks_of(alloc, image, plan) else {
        return Err(Memory);
    };
    let shape = shape_of(image, first_version, frames);
    let Ok(free) = image.free_pages(alloc, shape.next) else {
        return Err(Memory);
    };
    let Ok(rooms) = rooms_for(alloc, lists) else {
        return Err(Memory);
    };
    serve_on(
        rt,
        alloc,
        shape,
        blocks,
        free.as_slice(),
        lists,
        gate,
        rooms,
    )
}

/// The same on blocks of any kind, for a pool of this shape whose free pages below the next one may be used anew. The blocks hold pages that are
/// a tree; where they do not tell their words, only the caller knows of these. What was evicted or changed is written to the blocks, and they come
/// back in order. Where there is no memory they are dropped.
pub fn serve_on<R: Threads + Wait + Sync, B: PageBlock<512> + Send + Sync + Drop, G: Gate + Sync>(
    rt: &R,
    alloc: Global,
    shape: Shape,
    blocks: Vec<B>,
    free: &[u32],
    lists: &[Vec<KeyCall>],
    gate: &G,
    rooms: Vec<KeyReplies>,
) -> Result<KeyServed<B>, Memory>
    requires tree { (pages : List (List ℕ)) × MayServeOn bytes B.tells pages (map B.stored blocks.items) shape.next free.now }
    requires pages { (shape.pages ≡ length blocks.items) × (shape.pages ≤ 65536) }
    requires version { shape.first_version ≤ MAX_VERSION }
    requires frames { (64 ≤ shape.frames) × (shape.frames ≤ 65536) × (8 * length lists.now ≤ shape.frames) }
    requires lists { (1 ≤ length lists.now) × (length lists.now ≤ 64) }
    requires few { AreFew (items_of lists.now) }
    requires askable { AreKeyAskable (items_of lists.now) }
    requires rooms { HaveRoom KeepsKeyAnswers HasKeyRoom rooms.items (items_of lists.now) }
    ensures served { IfOk result (λ s. (pages : List (List ℕ)) → MayServeOn bytes B.tells pages (map B.stored blocks.items) shape.next free.now
        → IsKeyServedOnInto B.tells pages (map B.stored blocks.items) (items_of lists.now) s.kept.items s.report
        (map B.stored s.blocks.items) s.ended) }
    ensures version { IfOk result (λ s. (view_at_end s.ended).start.version ≡ shape.first_version) }
    ensures frames { IfOk result (λ s. (view_at_end s.ended).start.frames ≡ shape.frames) }
{
    let (pool, mut pass) = Pool::start(alloc, shape, blocks, free, &[])?;
    let driven = drive_into(rt, alloc, &pool, &mut pass, lists, gate, rooms)?;
    let DrivenInto { kept, evicted } = driven;
    asked_in_range(lists);
    shown_in_range(kept.as_slice());
    match flush_and_close(pool, alloc, pass) {
        Ok(saved) => {
            let Saved { report, closed } = saved;
            let Closed {
                blocks,
                next: _,
                ended,
            } = closed;
            Ok(ServedOn {
                kept,
                evicted,
                report,
                blocks,
                ended,
            })
        }
        Err(_) => Err(Memory),
    }
}
