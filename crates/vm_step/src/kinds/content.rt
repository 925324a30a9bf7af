// A word of a frame is loaded, for a page that the pass reads there; or stored.
ghost use Rattle.std.specs.Prelude.{◌<◌, ◌≡◌, length, replicate, Some, true};
ghost use Rattle.vm_rule.specs.Prelude.{frame_read_by, has, LoadTold, StoresTold};
ghost use Rattle.vm_rule.specs.Stores.{PassMayStore};
ghost use Rattle.vm_step.specs.Prelude.{GoesOn, IsFrameAt, IsReadyOn, MayStep, Stores, view};
ghost use Rattle.vm_step.specs.steps.Content.{FillIsItsEvent, LoadIsItsEvent, StoreIsItsEvent};

use crate::layout::frame_place;
use crate::operation;
use std::marker::Brand;
use vm_block::Block;
use vm_owner::Owner;
use vm_page::PageBuf;
use vm_rule::words::{Pass, Words};

/// Word `i` of the frame that the pass reads the page from: the page's own where the pass has it locked, else its open read's.
pub fn load<U: Owner, B: Block>(
    words: &Words<U, B>,
    pass: &mut Pass<U>,
    p: u32,
    f: u32,
    i: usize,
) -> u64
    requires pass { MayStep words.now.table.shared.table_id pass.old }
    requires page { (p < words.now.table.shared.key.pages) × (f < words.now.table.shared.key.frames) × (i < words.now.table.shared.key.size) }
    requires frame { frame_read_by (view pass.old) p ≡ Some f }
    ensures goes { GoesOn words.now B.tells pass.old pass.new }
    ensures told { LoadTold p f i result (view pass.old) (view pass.new) }
{
    load_at(words, pass, p, f, frame_place(words, f), i)
}

/// The same, where the place of the frame's first word is known.
pub fn load_at<U: Owner, B: Block>(
    words: &Words<U, B>,
    pass: &mut Pass<U>,
    p: u32,
    f: u32,
    first: usize,
    i: usize,
) -> u64
    requires pass { MayStep words.now.table.shared.table_id pass.old }
    requires page { (p < words.now.table.shared.key.pages) × (f < words.now.table.shared.key.frames) × (i < words.now.table.shared.key.size) }
    requires first { IsFrameAt words.now.table.shared.key words.now.table.shared.table_id.words f first }
    requires frame { frame_read_by (view pass.old) p ≡ Some f }
    ensures goes { GoesOn words.now B.tells pass.old pass.new }
    ensures told { LoadTold p f i result (view pass.old) (view pass.new) }
{
    operation::load::<U, B, (u32, u32, usize), Brand>(words, pass, first + i, (p, f, i))
}

/// Stores word `i` of a frame: one that the pass holds, or that of a dirty page which the pass has locked exclusively, where it
/// is a word of the page's draft.
pub fn store<U: Owner, B: Block>(words: &Words<U, B>, pass: &mut Pass<U>, f: u32, i: usize, w: u64)
    requires pass { MayStep words.now.table.shared.table_id pass.old }
    requires frame { (f < words.now.table.shared.key.frames) × (i < words.now.table.shared.key.size) }
    requires legal { PassMayStore (view pass.old) f }
    ensures goes { GoesOn words.now B.tells pass.old pass.new }
    ensures told { StoresTold f i w (view pass.old) (view pass.new) }
{
    store_at(words, pass, f, frame_place(words, f), i, w);
}

/// The same, where the place of the frame's first word is known.
pub fn store_at<U: Owner, B: Block>(
    words: &Words<U, B>,
    pass: &mut Pass<U>,
    f: u32,
    first: usize,
    i: usize,
    w: u64,
)
    requires pass { MayStep words.now.table.shared.table_id pass.old }
    requires frame { (f < words.now.table.shared.key.frames) × (i < words.now.table.shared.key.size) }
    requires first { IsFrameAt words.now.table.shared.key words.now.table.shared.table_id.words f first }
    requires legal { PassMayStore (view pass.old) f }
    ensures goes { GoesOn words.now B.tells pass.old pass.new }
    ensures told { StoresTold f i w (view pass.old) (view pass.new) }
{
    operation::store::<U, B, (u32, usize), Brand>(words, pass, first + i, w, (f, i));
}

/// Stores the words of a page into a frame of the pass, from the first on: a step for each.
pub fn fill<U: Owner, B: Block, const N: usize>(
    words: &Words<U, B>,
    pass: &mut Pass<U>,
    frame: u32,
    page: &PageBuf<N>,
)
    requires ready { IsReadyOn words.now B.tells pass.old }
    requires frame { (frame < words.now.table.shared.key.frames) × (has frame (view pass.old).frames ≡ true) }
    requires size { (N ≡ words.now.table.shared.key.size) × (length page.now ≡ N) }
    ensures goes { GoesOn words.now B.tells pass.old pass.new }
    ensures stores { Stores frame 0 page.now (view pass.old) (view pass.new) }
{
    let first = frame_place(words, frame);
    for i in 0..N {
        store_at(words, pass, frame, first, i, page.get(i));
    }
}

/// Stores zeros into a frame of the pass, from its first word on: a step for each.
pub fn blank<U: Owner, B: Block>(words: &Words<U, B>, pass: &mut Pass<U>, frame: u32)
    requires ready { IsReadyOn words.now B.tells pass.old }
    requires frame { (frame < words.now.table.shared.key.frames) × (has frame (view pass.old).frames ≡ true) }
    ensures goes { GoesOn words.now B.tells pass.old pass.new }
    ensures stores { Stores frame 0 (replicate words.now.table.shared.key.size 0) (view pass.old) (view pass.new) }
{
    let first = frame_place(words, frame);
    for i in 0..words.size.words {
        store_at(words, pass, frame, first, i, 0);
    }
}

/// A load of a word of a page's frame sees the word.
pub fn load_is_its_event<U: Owner, B: Block>()
    ensures { LoadIsItsEvent B.stored U.keeps U.tied B.tells }
{}

/// A store into the frame of a page that the pass holds exclusively sees nothing: that word of the frame is the one stored.
pub fn store_is_its_event<U: Owner, B: Block>()
    ensures { StoreIsItsEvent B.stored U.keeps U.tied B.tells }
{}

/// A store into a frame that the pass holds sees nothing: that word of the frame is the one stored.
pub fn fill_is_its_event<U: Owner, B: Block>()
    ensures { FillIsItsEvent B.stored U.keeps U.tied B.tells }
{}
