//! The maker of a table: every page is evicted, its words in its block, and every frame is free.

ghost use Rattle.std.specs.Prelude.{◌*◌, ◌++◌, ◌-◌, ◌^◌, ◌≡◌, ◌≤◌, IfOk, length, map, true};
ghost use Rattle.vm_event.specs.Prelude.{full_bundle, GroupsFit, MAX_VERSION};
ghost use Rattle.vm_rule.specs.Prelude.{AreClaimed, block_words, bundles_of, counts_of, AreWhole, free_words, IsStarted, listed, MayBegin, started_shape, started_words, unborn};
ghost use Rattle.vm_page.specs.Sizes.{IsSize};
ghost use Rattle.vm_rule.specs.Prelude.{view_of};
ghost use Rattle.vm_rule.specs.{Begun.begun, declared.began.Began.Began};

use crate::began::Began;
use crate::opening::{opened, push_faults, push_same, slots_of};
use crate::view::TableShape;
use crate::words::{PageGroups, Pass, Words};
use std::alloc::{AllocError, Global};
use vm_block::Block;
use vm_event::{FRAMES, Memory, StateWord, TransWord};
use vm_owner::Owner;

impl<U: Owner, B: Block + Drop> Words<U, B> {
    /// A table of as many pages as blocks and of this many frames, and its first pass, which has all parts.
    ///
    /// Takes 1 to 65536 pages of `size` words (64 or 512, as the owner takes them), 1 to 65536 frames, and a version of at most 2^56 - 1. Every
    /// page is evicted at that version, with its words in its block; every frame is zero and free. The pages from `next` on are zero, where the
    /// blocks tell, and not claimed yet. The numbers in `free`, of pages below `next`, are free: these pages are zero too, where the blocks tell.
    /// Each of `groups`, with its first page and its size, stands under the state word of its first page; no two share a page, and the owner takes
    /// them. The pass has made one step, a load of the first state word, and knows all words and blocks. Where there is no memory the blocks are
    /// dropped.
    pub fn started(
        alloc: Global,
        size: usize,
        frames: u32,
        next: u32,
        version: u64,
        blocks: Vec<B>,
        free: &[u32],
        groups: &[(u32, u32)],
    ) -> Result<(Words<U, B>, Pass<U>), Memory>
        requires sized { IsSize size }
        requires takes { U.takes_size size ≡ true }
        requires fit { GroupsFit (length blocks.items) groups.now }
        requires grouped { U.takes_groups groups.now ≡ true }
        requires whole { B.tells ≡ true → AreWhole size (map B.stored blocks.items) }
        requires fits { IsStarted version next frames (length blocks.items) }
        requires claimed { AreClaimed next free.now }
        requires begins { B.tells ≡ true → MayBegin U.keeps next free.now (block_words (map B.stored blocks.items)) }
        ensures key { IfOk result (λ made. made.0.table.shared.key ≡ started_shape size B.tells version next free.now groups.now frames (map B.stored blocks.items)) }
        ensures pass { IfOk result (λ made. made.1.badge.table_id ≡ made.0.table.shared.table_id) }
        ensures view { IfOk result (λ made. view_of made.1.badge.views ≡
            begun (unborn (started_shape size B.tells version next free.now groups.now frames (map B.stored blocks.items)))) }
    {
        let words = evicted_words(alloc, blocks.as_slice(), size, frames, next, version, free)?;
        let shape = shape_of(blocks.as_slice(), size, frames, next, version, free, groups);
        let groups = PageGroups::of(alloc, groups)?;
        let slots = slots_of(alloc, blocks)?;
        opened(alloc, words.as_slice(), slots, &shape, groups)
    }
}

/// The shape of the table. What its proofs are told is picked by the caller's proof, which takes it from these arguments: `_free` and `_groups`
/// serve that alone.
pub(crate) fn shape_of<B: Block>(
    blocks: &[B],
    size: usize,
    frames: u32,
    next: u32,
    version: u64,
    _free: &[u32],
    _groups: &[(u32, u32)],
) -> TableShape
    ghost told: { Began }
    ensures { result ≡ record { size = size; pages = length blocks.now; frames = frames; version = version; next = next; began = told } }
{
    TableShape {
        size: size as u64,
        pages: blocks.len() as u64,
        frames: frames as u64,
        version,
        next: next as u64,
        began: Began::new(),
    }
}

/// The words of the table, by its layout.
pub(crate) fn evicted_words<B: Block>(
    alloc: Global,
    blocks: &[B],
    size: usize,
    frames: u32,
    next: u32,
    version: u64,
    free: &[u32],
) -> Result<Vec<u64>, AllocError>
    requires size { size ≤ 512 }
    requires pages { length blocks.now ≤ 65536 }
    requires frames { frames ≤ 65536 }
    requires version { version ≤ MAX_VERSION }
    requires claimed { AreClaimed (length blocks.now) free.now }
    ensures { IfOk result (λ words. words.items ≡ started_words size (length blocks.now) frames version next free.now (counts_of (map B.stored blocks.now))) }
{
    let pages = blocks.len();
    let count = frames as usize;
    let spares = pages.div_ceil(FRAMES);
    let mut words = Vec::with_capacity(alloc, 3 * pages + (size + 2) * count + 2 + spares)?;
    push_same(
        &mut words,
        pages,
        StateWord::of(StateWord::EVICTED, version),
    )?;
    push_same(&mut words, pages, TransWord::EMPTY)?;
    push_faults(&mut words, blocks)?;
    push_same(&mut words, size * count, 0)?;
    push_bundles(&mut words, count)?;
    words.push(next as u64)?;
    words.push(0)?;
    push_same(&mut words, count, 0)?;
    push_free(&mut words, spares, free)?;
    Ok(words)
}

/// The bundles of the frames, all of them free.
fn push_bundles(words: &mut Vec<u64>, frames: usize) -> Result<(), AllocError>
    requires { frames ≤ 65536 }
    ensures { IfOk result (λ _. words.new.items ≡ words.old.items ++ listed (bundles_of frames) (full_bundle frames)) }
{
    for g in 0..frames.div_ceil(FRAMES) {
        words.push(low_bits((frames - FRAMES * g).min(FRAMES)))?;
    }
    Ok(())
}

/// The free-number words, `count` of them: the bits of these pages are set.
fn push_free(words: &mut Vec<u64>, count: usize, free: &[u32]) -> Result<(), AllocError>
    requires { AreClaimed (64 * count) free.now }
    ensures { IfOk result (λ _. words.new.items ≡ words.old.items ++ listed count (free_words free.now)) }
{
    let base = words.len();
    push_same(words, count, 0)?;
    for p in free {
        let page = *p as usize;
        let word = base + page / FRAMES;
        words[word] |= 1 << (page % FRAMES);
    }
    Ok(())
}

/// The `n` lowest bits of a word.
fn low_bits(n: usize) -> u64
    requires { n ≤ 64 }
    ensures { result ≡ 2 ^ n - 1 }
{
    if n == 64 { u64::MAX } else { (1 << n) - 1 }
}
