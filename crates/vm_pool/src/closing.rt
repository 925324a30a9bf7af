//! The end of a pool, once there is room for its blocks.

ghost use Rattle.std.specs.Mem.Slots.{IsFull, slots_items, slots_len};
ghost use Rattle.std.specs.Prelude.{[], ◌*◌, ◌+◌, ◌≡◌, ◌≤◌, List, map, Some, true};
ghost use Rattle.std.specs.Vec.{vec_capacity};
ghost use Rattle.vm_event.specs.Prelude.{at};
ghost use Rattle.vm_rule.specs.Prelude.{bundles_of, HoldsNoPage, IsWhole, view_of, width_of};
ghost use Rattle.vm_pool.specs.Closing.{AreSums, IsClosed, view_at_end};

use crate::ended::{Closed, Ended};
use atomic_table::Closed as ClosedTable;
use std::alloc::Global;
use vm_block::Block;
use vm_event::FRAMES;
use vm_owner::Ungrouped;
use vm_rule::words::{Pass, Words};

/// The end of a pool with these words, whose pass has all parts and holds no page. There is room for the blocks.
pub(crate) fn closed<U: Ungrouped, B: Block + Drop>(
    words: Words<U, B>,
    pass: Pass<U>,
    room: Vec<B>,
) -> Closed<U, B>
    requires pass { pass.badge.table_id ≡ words.table.shared.table_id }
    requires whole { IsWhole (view_of pass.badge.views) }
    requires current { (view_of pass.badge.views).current ≡ true }
    requires holds { HoldsNoPage (view_of pass.badge.views) }
    requires room { (room.items ≡ []) × (words.pages ≤ vec_capacity room) }
    ensures closed { IsClosed B.tells U.keeps (view_of pass.badge.views) (map B.stored result.blocks.items) result.next }
    ensures sums { AreSums (map B.stored result.blocks.items) result.ended }
    ensures start { (view_of pass.badge.views).start ≡ words.table.shared.key.began.origin }
    ensures told { view_at_end result.ended ≡ view_of pass.badge.views }
{
    let knew = pass.knew();
    let (size, pages, frames) = (words.size.words, words.pages, words.frames);
    let table = words.close_with(pass);
    let next = next_of(&table, size, pages, frames);
    let blocks = blocks_of(table, room);
    let ended = Ended::of(knew, blocks.as_slice());
    Closed {
        blocks,
        next,
        ended,
    }
}

/// The next word of a table of so many pages, with so many words each, and frames.
fn next_of<B>(
    table: &ClosedTable<Option<B>, Global>,
    size: usize,
    pages: usize,
    frames: usize,
) -> u32
    requires numbers { (size ≤ 512) × (pages ≤ 65536) × (frames ≤ 65536) }
    requires full { (slots_len table.now.words ≡ width_of size pages frames) × IsFull table.now.words }
    requires small { at 0 (slots_items table.now.words) (3 * pages + size * frames + bundles_of frames) ≤ 65536 }
    ensures { result ≡ at 0 (slots_items table.now.words) (3 * pages + size * frames + bundles_of frames) }
{
    table.word(3 * pages + size * frames + (frames + (FRAMES - 1)) / FRAMES) as u32
}

/// The blocks of a table that was closed, in the order of their pages. All are at home, and there is room for them.
fn blocks_of<B: Drop>(mut table: ClosedTable<Option<B>, Global>, mut blocks: Vec<B>) -> Vec<B>
    requires full { IsFull table.slots }
    requires home { (items : List B) × (map Some items ≡ slots_items table.slots) }
    requires room { (blocks.items ≡ []) × (slots_len table.slots ≤ vec_capacity blocks) }
    ensures { map Some result.items ≡ slots_items table.slots }
{
    for p in 0..table.slot_count() {
        let slot = table.take(p);
        let Some(block) = slot else { unreachable!() };
        if blocks.push(block).is_err() {
            unreachable!()
        }
    }
    table.free();
    blocks
}
