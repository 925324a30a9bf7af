//! The calls are made on a pool over blocks of any kind, which is then flushed and closed; what keeps the answers may be anything. An image's
//! pages are served as blocks in memory: the image may be let go as soon as there are blocks.

ghost use Rattle.std.specs.List.{AllByRecursion};
ghost use Rattle.std.specs.Prelude.{[], ◌*◌, ◌≡◌, ◌≤◌, IfOk, length, List, map, ℕ};
ghost use Rattle.vm_tree_model.specs.{Fixed.fixed, Tree.IsTree};
ghost use Rattle.vm_image.specs.{File.IsNextPage};
ghost use Rattle.vm_event.specs.Prelude.{MAX_VERSION};
ghost use Rattle.vm_drive.specs.from_vm_pool.Closing.{view_at_end};
ghost use Rattle.vm_drive.specs.Prelude.{all_replies, HasContents};
ghost use Rattle.vm_drive.specs.Drives.{AreAskable, AreFew, items_of};
ghost use Rattle.vm_drive.specs.{Lists.HaveRoom, Rooms.RoomFor};
ghost use Rattle.vm_serve.specs.Served.{IsServed, IsServedInto, IsServedOnInto, MayBeServed};

use std::alloc::Global;
use std::sync::Wait;
use std::thread::Threads;
use vm_block::{MemBlock, PageBlock};
use vm_drive::answers::Answers;
use vm_drive::compact::Replies;
use vm_drive::evict::Flushed;
use vm_drive::gate::Gate;
use vm_drive::kind::{OfSize, TreeOf, WordKeys};
use vm_drive::pool::{Closed, Ended, Pool, Saved, Shape, flush_and_close};
use vm_drive::{DrivenInto, drive_into, rooms_for};
use vm_event::Memory;
use vm_image::{Image, PlannedFault, blocks_of};
use vm_map::call::Call;
use vm_owner::Owner;

/// What serving the calls came to.
#[derive(Drop)]
pub struct Served<U: Owner, const N: usize> {
    /// For each worker an answer to each of its calls.
    pub replies: Vec<Replies>,
    /// How many pages the workers' sweeps evicted.
    pub evicted: u64,
    /// What the last flush did.
    pub report: Flushed,
    /// The blocks, in the order of their pages.
    pub blocks: Vec<MemBlock<N>>,
    /// That the pool was closed, with the one history that this run had.
    pub ended: Ended<U>,
}

/// What serving the calls came to on blocks of any kind, where the caller chose what keeps the answers.
#[derive(Drop)]
pub struct ServedOn<U: Owner, A, B> {
    /// For each worker what keeps its answers.
    pub kept: Vec<A>,
    /// How many pages the workers' sweeps evicted.
    pub evicted: u64,
    /// What the last flush did.
    pub report: Flushed,
    /// The blocks, in the order of their pages.
    pub blocks: Vec<B>,
    /// That the pool was closed, with the one history that this run had.
    pub ended: Ended<U>,
}

/// Makes the workers' calls on the image's tree, with so many frames, each page beginning at the first version, and with blocks that fail the
/// calls of the plan. Where there is no memory nothing is told.
pub fn serve<S: OfSize<N> + Sync, R: Threads + Wait + Sync, G: Gate + Sync, const N: usize>(
    rt: &R,
    alloc: Global,
    image: &Image<N>,
    plan: &[PlannedFault],
    first_version: u64,
    frames: u32,
    lists: &[Vec<Call>],
    gate: &G,
) -> Result<Served<TreeOf<WordKeys<S, N>>, N>, Memory>
    requires tree { IsTree (fixed N) image.now }
    requires plan { length plan.now ≤ 64 }
    requires version { first_version ≤ MAX_VERSION }
    requires frames { (64 ≤ frames) × (frames ≤ 65536) × (8 * length lists.now ≤ frames) }
    requires lists { (1 ≤ length lists.now) × (length lists.now ≤ 64) }
    requires few { AreFew (items_of lists.now) }
    requires askable { AreAskable (items_of lists.now) }
    ensures served { IfOk result (λ s. IsServed N image.now plan.now (items_of lists.now) (all_replies s.replies.items) s.report s.blocks.items s.ended) }
    ensures contents { IfOk result (λ s. AllByRecursion HasContents s.replies.items) }
    ensures version { IfOk result (λ s. (view_at_end s.ended).start.version ≡ first_version) }
    ensures frames { IfOk result (λ s. (view_at_end s.ended).start.frames ≡ frames) }
{
    let Ok(blocks) = blocks_of(alloc, image, plan) else {
        return Err(Memory);
    };
    let shape = shape_of(image, first_version, frames);
    let Ok(free) = image.free_pages(alloc, shape.next) else {
        return Err(Memory);
    };
    let Ok(rooms) = rooms_for(alloc, lists) else {
        return Err(Memory);
    };
    let ServedOn {
        kept,
        evicted,
        report,
        blocks,
        ended,
    } = serve_on(
        rt,
        alloc,
        shape,
        blocks,
        free.as_slice(),
        lists,
        gate,
        rooms,
    )?;
    Ok(Served {
        replies: kept,
        evicted,
        report,
        blocks,
        ended,
    })
}

/// The same on blocks that fail in nothing, where each list has something that keeps its answers. The image is let go before the pool starts, so
/// that its pages do not stand in memory twice.
pub fn serve_into<
    S: OfSize<N> + Sync,
    R: Threads + Wait + Sync,
    G: Gate + Sync,
    A: Answers + Send + Drop,
    const N: usize,
>(
    rt: &R,
    alloc: Global,
    image: Image<N>,
    first_version: u64,
    frames: u32,
    lists: &[Vec<Call>],
    gate: &G,
    rooms: Vec<A>,
) -> Result<ServedOn<TreeOf<WordKeys<S, N>>, A, MemBlock<N>>, Memory>
    requires tree { IsTree (fixed N) image }
    requires version { first_version ≤ MAX_VERSION }
    requires frames { (64 ≤ frames) × (frames ≤ 65536) × (8 * length lists.now ≤ frames) }
    requires lists { (1 ≤ length lists.now) × (length lists.now ≤ 64) }
    requires few { AreFew (items_of lists.now) }
    requires askable { AreAskable (items_of lists.now) }
    requires rooms { HaveRoom A.keeps (RoomFor A.room) rooms.items (items_of lists.now) }
    ensures served { IfOk result (λ s. IsServedInto N A.keeps image.entry [] (items_of lists.now) s.kept.items s.report s.blocks.items s.ended) }
    ensures version { IfOk result (λ s. (view_at_end s.ended).start.version ≡ first_version) }
    ensures frames { IfOk result (λ s. (view_at_end s.ended).start.frames ≡ frames) }
{
    let Ok(blocks) = blocks_of(alloc, &image, &[]) else {
        return Err(Memory);
    };
    let shape = shape_of(&image, first_version, frames);
    let Ok(free) = image.free_pages(alloc, shape.next) else {
        return Err(Memory);
    };
    drop(image);
    serve_on(
        rt,
        alloc,
        shape,
        blocks,
        free.as_slice(),
        lists,
        gate,
        rooms,
    )
}

/// What a pool of the image's pages is started with.
pub fn shape_of<const N: usize>(image: &Image<N>, first_version: u64, frames: u32) -> Shape
    ensures pages { (result.pages ≡ length image.now) × (result.pages ≤ 65536) }
    ensures next { IsNextPage N image.now result.next }
    ensures asked { (result.first_version ≡ first_version) × (result.frames ≡ frames) }
{
    Shape {
        pages: image.pages(),
        frames,
        next: image.next(),
        first_version,
    }
}

/// The same on blocks of any kind, for a pool of this shape whose free pages below the next one may be used anew. The blocks hold pages that are
/// a tree; where they do not tell their words, only the caller knows of these. What was evicted or changed is written to the blocks, and they come
/// back in order. Where there is no memory they are dropped.
pub fn serve_on<
    S: OfSize<N> + Sync,
    R: Threads + Wait + Sync,
    B: PageBlock<N> + Send + Sync + Drop,
    G: Gate + Sync,
    A: Answers + Send + Drop,
    const N: usize,
>(
    rt: &R,
    alloc: Global,
    shape: Shape,
    blocks: Vec<B>,
    free: &[u32],
    lists: &[Vec<Call>],
    gate: &G,
    rooms: Vec<A>,
) -> Result<ServedOn<TreeOf<WordKeys<S, N>>, A, B>, Memory>
    requires tree { (pages : List (List ℕ)) × MayBeServed N B.tells pages (map B.stored blocks.items) shape.next free.now }
    requires pages { (shape.pages ≡ length blocks.items) × (shape.pages ≤ 65536) }
    requires version { shape.first_version ≤ MAX_VERSION }
    requires frames { (64 ≤ shape.frames) × (shape.frames ≤ 65536) × (8 * length lists.now ≤ shape.frames) }
    requires lists { (1 ≤ length lists.now) × (length lists.now ≤ 64) }
    requires few { AreFew (items_of lists.now) }
    requires askable { AreAskable (items_of lists.now) }
    requires rooms { HaveRoom A.keeps (RoomFor A.room) rooms.items (items_of lists.now) }
    ensures served { IfOk result (λ s. (pages : List (List ℕ)) → MayBeServed N B.tells pages (map B.stored blocks.items) shape.next free.now
        → IsServedOnInto N B.tells A.keeps pages (map B.stored blocks.items) (items_of lists.now) s.kept.items s.report
        (map B.stored s.blocks.items) s.ended) }
    ensures version { IfOk result (λ s. (view_at_end s.ended).start.version ≡ shape.first_version) }
    ensures frames { IfOk result (λ s. (view_at_end s.ended).start.frames ≡ shape.frames) }
{
    let (pool, mut pass) = Pool::start(alloc, shape, blocks, free, &[])?;
    let driven = drive_into(rt, alloc, &pool, &mut pass, lists, gate, rooms)?;
    let DrivenInto { kept, evicted } = driven;
    match flush_and_close(pool, alloc, pass) {
        Ok(saved) => {
            let Saved { report, closed } = saved;
            let Closed {
                blocks,
                next: _,
                ended,
            } = closed;
            Ok(ServedOn {
                kept,
                evicted,
                report,
                blocks,
                ended,
            })
        }
        Err(_) => Err(Memory),
    }
}
