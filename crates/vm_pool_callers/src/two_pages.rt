// A pool is started, two pages are brought, and a word of the first is read. It stands on the contracts of `open_page`, `bring` and `read_word`
// alone, and shows that they can be chained: what a pass that is alone knows after one call is what makes the next one sure.
ghost use Rattle.std.specs.Prelude.{[], ◌<◌, ◌≡◌, ◌≢◌, ◌≤◌, IfOk, IsSome, length, map, true};
ghost use Rattle.vm_event.specs.Prelude.{MAX_VERSION};
ghost use Rattle.vm_page.specs.Sizes.{IsSize};
ghost use Rattle.vm_rule.specs.Prelude.{block_words, bounds_of, IsStarted, MayBegin};
ghost use Rattle.vm_pool.specs.Brings.{IsBroughtOrFailed};

use crate::first_page::{Opened, open_page};
use std::alloc::Global;
use vm_block::{Block, PageBlock};
use vm_event::Memory;
use vm_exmap::Interface;
use vm_owner::{Owner, Ungrouped};
use vm_pool::guard::read_word;
use vm_pool::{Bring, Pool, Shape};
use vm_rule::words::Pass;

/// A pool that was just started, with its first pass, what `bring` answered for two pages, and the word of the first that was read then.
pub struct TwoPages<U: Owner, B: Block, const N: usize> {
    pub pool: Pool<U, B, N>,
    pub pass: Pass<U>,
    pub iface: Interface,
    pub first: Bring,
    pub second: Bring,
    pub word: Option<u64>,
}

/// Starts a pool of two or more frames, below the last version, brings the pages `a` and `b`, and reads word `i` of `a`. Each page is
/// brought, or its device failed, as the bound of its block allows; where `a` was brought, the word is read.
pub fn open_two<U: Ungrouped, B: PageBlock<N> + Drop, const N: usize>(
    alloc: Global,
    shape: Shape,
    blocks: Vec<B>,
    a: u32,
    b: u32,
    i: usize,
) -> Result<TwoPages<U, B, N>, Memory>
    requires sized { IsSize N }
    requires takes { U.takes_size N ≡ true }
    requires pages { shape.pages ≡ length blocks.items }
    requires fits { IsStarted shape.first_version shape.next shape.frames (length blocks.items) }
    requires below { shape.first_version < MAX_VERSION }
    requires frames { 2 ≤ shape.frames }
    requires page { (a < shape.pages) × (b < shape.pages) × (a ≢ b) × (i < N) }
    requires begins { B.tells ≡ true → MayBegin U.keeps shape.next [] (block_words (map B.stored blocks.items)) }
    ensures first { IfOk result (λ two. IsBroughtOrFailed a (bounds_of (map B.stored blocks.items)) two.first) }
    ensures second { IfOk result (λ two. IsBroughtOrFailed b (bounds_of (map B.stored blocks.items)) two.second) }
    ensures word { IfOk result (λ two. two.first ≡ Bring.Brought → IsSome two.word) }
{
    let Opened {
        pool,
        mut pass,
        mut iface,
        answer: first,
    } = open_page(alloc, shape, blocks, a)?;
    let second = pool.bring(&mut pass, &mut iface, b);
    let word = read_word(&pool.words, &mut pass, a, i);
    Ok(TwoPages {
        pool,
        pass,
        iface,
        first,
        second,
        word,
    })
}
