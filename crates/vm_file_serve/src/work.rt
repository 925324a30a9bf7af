//! The workers' calls on the blocks of a file, and the text of what they came to.

ghost use Rattle.std.specs.List.{AllByRecursion};
ghost use Rattle.std.specs.Prelude.{◌*◌, ◌≡◌, ◌≤◌, IfOk, length, map};
ghost use Rattle.vm_reading.specs.from_vm_drive.Prelude.{all_replies, HasContents};
ghost use Rattle.vm_reading.specs.from_vm_drive.Drives.{AreAskable, AreFew, items_of};
ghost use Rattle.vm_reading.specs.from_vm_pool.Closing.{view_at_end};
ghost use Rattle.vm_reading.specs.from_vm_endings.{Deliveries.content_of, Replies.AreMatched};
ghost use Rattle.vm_reading.specs.from_vm_serve.Served.{IsServedOn};
ghost use Rattle.vm_file_serve.specs.Serving.{AreServable, IsToldServe};

use std::alloc::{AllocError, Global};
use std::sync::Wait;
use std::thread::Threads;
use vm_block::PageBlock;
use vm_event::Memory;
use vm_image::Image;
use vm_map::call::Call;
use vm_page::WORDS;
use vm_reading::drive::{Gate, Replies, rooms_for};
use vm_reading::endings::{Delivery, cut_text, whole_text};
use vm_reading::kind::{Sizes, Tree};
use vm_reading::pool::{Ended, Shape};
use vm_reading::serve::{ServedOn, serve_on};

/// Makes the calls on the tree of these pages, which the blocks hold, in a pool of so many frames, each page at version 0 at the start. The image is let
/// go before. Where there is no memory the blocks are dropped.
pub fn worked<R: Threads + Wait + Sync, B: PageBlock<WORDS> + Send + Sync + Drop, G: Gate + Sync>(
    rt: &R,
    alloc: Global,
    frames: u32,
    image: Image<WORDS>,
    lists: &[Vec<Call>],
    gate: &G,
    blocks: Vec<B>,
) -> Result<ServedOn<Tree, Replies, B>, Memory>
    requires pages { AreServable B.tells image (map B.stored blocks.items) }
    requires frames { (64 ≤ frames) × (frames ≤ 65536) × (8 * length lists.now ≤ frames) }
    requires lists { (1 ≤ length lists.now) × (length lists.now ≤ 64) }
    requires few { AreFew (items_of lists.now) }
    requires askable { AreAskable (items_of lists.now) }
    ensures served { IfOk result (λ s. IsServedOn 64 B.tells image (map B.stored blocks.items) (items_of lists.now) (all_replies s.kept.items) s.report (map B.stored s.blocks.items) s.ended) }
    ensures contents { IfOk result (λ s. AllByRecursion HasContents s.kept.items) }
    ensures version { IfOk result (λ s. (view_at_end s.ended).start.version ≡ 0) }
    ensures frames { IfOk result (λ s. (view_at_end s.ended).start.frames ≡ frames) }
{
    let Ok(rooms) = rooms_for(alloc, lists) else {
        return Err(Memory);
    };
    let shape = Shape {
        pages: image.pages(),
        frames,
        next: image.next(),
        first_version: 0,
    };
    let Ok(free) = image.free_pages(alloc, shape.next) else {
        return Err(Memory);
    };
    drop(image);
    serve_on::<Sizes, R, B, G, Replies, WORDS>(
        rt,
        alloc,
        shape,
        blocks,
        free.as_slice(),
        lists,
        gate,
        rooms,
    )
}

/// What is told of the calls: their replies, a page that could not be written or made to last, and the counters.
pub fn told<'a>(
    alloc: Global,
    lists: &[Vec<Call>],
    replies: &[Replies],
    unsaved: Option<u32>,
    ended: &Ended<Tree>,
    evicted: u64,
) -> Result<Delivery<'a>, AllocError>
    requires few { AreFew (items_of lists.now) }
    requires workers { length lists.now ≤ 64 }
    requires matched { AreMatched (items_of lists.now) (all_replies replies.now) }
    requires contents { AllByRecursion HasContents replies.now }
    ensures { IfOk result (λ delivery. IsToldServe (items_of lists.now) (all_replies replies.now) unsaved ended.now evicted (content_of delivery)) }
{
    match unsaved {
        Some(page) => {
            let text = cut_text(alloc, lists, replies, page, ended, evicted)?;
            Ok(Delivery::line(text, 7))
        }
        None => {
            let text = whole_text(alloc, lists, replies, &[], ended, evicted)?;
            Ok(Delivery::line(text, 0))
        }
    }
}
