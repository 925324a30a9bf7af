// A pool is started, and a word of a page goes out to the page's block and comes back: it stands on the contracts of `start` and `round_trip` alone, and
// shows that a word can be had again for sure from the very start, with a sweep in between.
ghost use Rattle.std.specs.Prelude.{[], ◌+◌, ◌<◌, ◌≡◌, false, IfOk, IfSome, length, map, Some, true};
ghost use Rattle.vm_event.specs.Prelude.{at, MAX_VERSION};
ghost use Rattle.vm_page.specs.{Pages.all_zero, Pages.page_at, Sizes.IsSize};
ghost use Rattle.vm_rule.specs.Prelude.{block_words, bounds_of, IsStarted, MayBegin};

use crate::round_trip::round_trip;
use std::alloc::Global;
use vm_block::{Block, PageBlock};
use vm_event::Memory;
use vm_exmap::Interface;
use vm_owner::Bare;
use vm_pool::{Pool, Shape};
use vm_rule::words::Pass;

/// A pool that was just started, with its first pass, and the word that was read again.
pub struct ReadBack<B: Block, const N: usize> {
    pub pool: Pool<Bare, B, N>,
    pub pass: Pass<Bare>,
    pub iface: Interface,
    pub word: Option<u64>,
}

/// Starts a pool, four versions below the last or more, and writes `w` as word `i` of page `pid`, whose words are not all 0, as `round_trip` does. The word that is
/// read again is `w`; where the page's block never fails, it is read.
pub fn keep_word<B: PageBlock<N> + Drop, const N: usize>(
    alloc: Global,
    shape: Shape,
    blocks: Vec<B>,
    pid: u32,
    i: usize,
    w: u64,
) -> Result<ReadBack<B, N>, Memory>
    requires sized { IsSize N }
    requires pages { shape.pages ≡ length blocks.items }
    requires fits { IsStarted shape.first_version shape.next shape.frames (length blocks.items) }
    requires below { shape.first_version + 3 < MAX_VERSION }
    requires page { (pid < shape.next) × (i < N) }
    requires used { all_zero (page_at (block_words (map B.stored blocks.items)) pid) ≡ false }
    requires tells { B.tells ≡ true }
    requires begins { MayBegin {X = Unit {0}} (λ start kept. Unit {0}) shape.next [] (block_words (map B.stored blocks.items)) }
    ensures word { IfOk result (λ end. IfSome end.word (λ x. x ≡ w)) }
    ensures sure { IfOk result (λ end. at 0 (bounds_of (map B.stored blocks.items)) pid ≡ 0 → end.word ≡ Some w) }
{
    let (pool, mut pass) = Pool::start(alloc, shape, blocks, &[], &[])?;
    let mut iface = Interface::new(0, 1);
    let word = round_trip(&pool, &mut pass, &mut iface, pid, i, w);
    Ok(ReadBack {
        pool,
        pass,
        iface,
        word,
    })
}
