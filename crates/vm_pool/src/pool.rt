//! A pool: the shared words with their blocks, from the start to the end.

ghost use Rattle.std.specs.Prelude.{◌≡◌, IfErr, IfOk, length, map, true};
ghost use Rattle.vm_event.specs.Prelude.{GroupsFit};
ghost use Rattle.vm_rule.specs.Prelude.{AreClaimed, block_words, HoldsNoPage, IsStarted, IsWhole, MayBegin, started_shape, unborn, view_of};
ghost use Rattle.vm_rule.specs.Begun.{begun};
ghost use Rattle.vm_page.specs.Sizes.{IsSize};
ghost use Rattle.vm_pool.specs.Closing.{AreSums, IsClosed, view_at_end};

use crate::closing::closed;
use crate::ended::Closed;
use std::alloc::Global;
use vm_block::{Block, PageBlock};
use vm_event::Memory;
use vm_owner::{Owner, Ungrouped};
use vm_rule::words::{Pass, Words};

/// What a pool is started with, beside its blocks: 1 to 65536 pages, as many as blocks, and 1 to 65536 frames; the least page number that is
/// not claimed; the first version of every page, at most 2^56 - 1.
#[derive(Clone, Copy)]
pub struct Shape {
    pub pages: u32,
    pub frames: u32,
    pub next: u32,
    pub first_version: u64,
}

/// The pages of an owner, of `N` words each with its block, for any number of passes.
pub struct Pool<U: Owner, B: Block, const N: usize> {
    pub words: Words<U, B>,
    pub ghost sized: { IsSize N },
    pub ghost size: { N ≡ words.table.shared.key.size },
}

// A pool that is let go drops the blocks that are at home.
impl<U: Owner, B: Block + Drop, const N: usize> Drop for Pool<U, B, N> {
    fn drop(self) {
        let Pool { words } = self;
        drop(words);
    }
}

impl<U: Owner, B: PageBlock<N> + Drop, const N: usize> Pool<U, B, N> {
    /// A pool whose pages are all evicted, with their words in the blocks, and whose frames are all free; and its first pass, which has all
    /// parts and knows every word and block. The pages from the next one on are zero, where the blocks tell. The numbers in `free` are those of
    /// pages below it that `ExclusiveGuard::fresh` may give anew: these pages are zero too, where the blocks tell. Each of `groups`, with its first
    /// page and its size, stands under the state word of its first page. Where there is no memory the blocks are dropped.
    pub fn start(
        alloc: Global,
        shape: Shape,
        blocks: Vec<B>,
        free: &[u32],
        groups: &[(u32, u32)],
    ) -> Result<(Pool<U, B, N>, Pass<U>), Memory>
        requires sized { IsSize N }
        requires takes { U.takes_size N ≡ true }
        requires fit { GroupsFit (length blocks.items) groups.now }
        requires grouped { U.takes_groups groups.now ≡ true }
        requires pages { shape.pages ≡ length blocks.items }
        requires fits { IsStarted shape.first_version shape.next shape.frames (length blocks.items) }
        requires claimed { AreClaimed shape.next free.now }
        requires begins { B.tells ≡ true → MayBegin U.keeps shape.next free.now (block_words (map B.stored blocks.items)) }
        ensures key { IfOk result (λ made. made.0.words.table.shared.key
            ≡ started_shape N B.tells shape.first_version shape.next free.now groups.now shape.frames (map B.stored blocks.items)) }
        ensures pass { IfOk result (λ made. made.1.badge.table_id ≡ made.0.words.table.shared.table_id) }
        ensures view { IfOk result (λ made. view_of made.1.badge.views
            ≡ begun (unborn (started_shape N B.tells shape.first_version shape.next free.now groups.now shape.frames (map B.stored blocks.items)))) }
    {
        let (words, pass) = Words::started(
            alloc,
            N,
            shape.frames,
            shape.next,
            shape.first_version,
            blocks,
            free,
            groups,
        )?;
        Ok((Pool { words }, pass))
    }

    /// The shared words, for the calls of passes.
    pub fn words(&self) -> &Words<U, B>
        ensures { result.now ≡ self.now.words }
    {
        &self.words
    }
}

impl<U: Ungrouped, B: PageBlock<N> + Drop, const N: usize> Pool<U, B, N> {
    /// Ends the pool with a pass that has all parts, has made a step since it was split or joined, and holds no page: the blocks come back, in
    /// the order of their pages. Where there is no memory for their list nothing has changed.
    pub fn close(
        self,
        alloc: Global,
        pass: Pass<U>,
    ) -> Result<Closed<U, B>, (Pool<U, B, N>, Pass<U>)>
        requires pass { pass.badge.table_id ≡ self.words.table.shared.table_id }
        requires whole { IsWhole (view_of pass.badge.views) }
        requires current { (view_of pass.badge.views).current ≡ true }
        requires holds { HoldsNoPage (view_of pass.badge.views) }
        ensures closed { IfOk result (λ end. IsClosed B.tells U.keeps (view_of pass.badge.views) (map B.stored end.blocks.items) end.next) }
        ensures sums { IfOk result (λ end. AreSums (map B.stored end.blocks.items) end.ended) }
        ensures told { IfOk result (λ end. view_at_end end.ended ≡ view_of pass.badge.views) }
        ensures start { IfOk result (λ _. (view_of pass.badge.views).start ≡ self.words.table.shared.key.began.origin) }
        ensures refused { IfErr result (λ back. (back.0 ≡ self) × (back.1 ≡ pass)) }
    {
        match Vec::with_capacity(alloc, self.words.pages) {
            Ok(room) => {
                let Pool { words } = self;
                Ok(closed(words, pass, room))
            }
            Err(_) => Err((self, pass)),
        }
    }
}
