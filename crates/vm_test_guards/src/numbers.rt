//! Four workers in threads that take page numbers from the two free-number words of a pool and give them again, with ample memory. Which
//! numbers are free in the end is the same whatever the schedule. The values are worked out by hand from the rules.
ghost use Rattle.std.specs.Prelude.{[], ◌*◌, ◌<◌, ◌≡◌, ◌≤◌, All, IfOk, length, slice_index_or, ℕ};
ghost use Rattle.vm_step.specs.Prelude.{GoesOn, IsReadyOn, IsSamePass, view};
ghost use Rattle.vm_workers.specs.Puts.{HasPut, KeepsParts, MayStartWork};

use std::alloc::Global;
use std::process::Abort;
use std::test::Fail;
use std::thread;
use std::thread::Threads;
use vm_block::{Block, MemBlock, PageBlock};
use vm_event::{Bundle, FRAMES, Memory};
use vm_owner::Bare;
use vm_page::WORDS;
use vm_pool::{Pool, Shape};
use vm_rule::words::{Pass, Words};
use vm_step::{Took, pbload, pgive, ptake};
use vm_test_pages::passes::zeros;
use vm_workers::pool_callers::join_each;

/// How often each worker tries to take a number.
const ROUNDS: u32 = 1_000;

/// One round: the lowest number of free-number word `g` is taken, and given again. Nothing is done where none is free, or another worker came
/// before.
fn round<B: Block>(words: &Words<Bare, B>, pass: &mut Pass<Bare>, g: u32)
    requires may { MayStartWork words.now.table.shared.key B.tells words.now.table.shared.table_id [] pass.old }
    requires whole { (view pass.old).pending ≡ [] }
    requires word { g * FRAMES < words.now.table.shared.key.pages }
    ensures pass { IsSamePass pass.old pass.new }
    ensures may { MayStartWork words.now.table.shared.key B.tells words.now.table.shared.table_id [] pass.new }
    ensures whole { (view pass.new).pending ≡ [] }
    ensures parts { KeepsParts (view pass.old) (view pass.new) }
{
    let word = pbload(words, pass, g);
    if word == 0 {
        return;
    }
    let mask = Bundle::lowest(word, 1);
    match ptake(words, pass, g, word, mask) {
        Took::Taken => {
            pgive(words, pass, g, mask);
        }
        Took::Lost(_) => (),
    }
}

/// The rounds of one worker, at the two free-number words in turn.
fn work<B: Block>(words: &Words<Bare, B>, pass: &mut Pass<Bare>)
    requires may { MayStartWork words.now.table.shared.key B.tells words.now.table.shared.table_id [] pass.old }
    requires whole { (view pass.old).pending ≡ [] }
    requires pages { 64 < words.now.table.shared.key.pages }
    ensures done { HasPut words.now.table.shared.key B.tells words.now.table.shared.table_id pass.old pass.new }
{
    for i in 0..ROUNDS {
        round(words, pass, i % 2);
    }
}

/// Each worker makes its rounds, in as many threads as there are workers where those can be had.
fn work_all<R: Threads + Sync, B: PageBlock<N> + Send + Sync, const N: usize>(
    rt: &R,
    pool: &Pool<Bare, B, N>,
    passes: &mut [Pass<Bare>],
)
    requires may { All (λ p. MayStartWork pool.now.words.table.shared.key B.tells pool.now.words.table.shared.table_id [] p) passes.old }
    requires whole { All (λ p. (view p).pending ≡ []) passes.old }
    requires pages { 64 < pool.now.words.table.shared.key.pages }
    ensures count { length passes.new ≡ length passes.old }
    ensures done { (i : ℕ) (d : _) → i < length passes.old
        → HasPut pool.now.words.table.shared.key B.tells pool.now.words.table.shared.table_id (slice_index_or passes.old i d) (slice_index_or passes.new i d) }
{
    let count = passes.len();
    if count > 0 {
        thread::for_each_mut(
            rt,
            passes,
            count,
            &|_number: usize, pass: &mut Pass<Bare>|
                requires may { MayStartWork pool.now.words.table.shared.key B.tells pool.now.words.table.shared.table_id [] pass.old }
                requires whole { (view pass.old).pending ≡ [] }
                requires pages { 64 < pool.now.words.table.shared.key.pages }
                ensures { HasPut pool.entry.now.words.table.shared.key B.tells pool.entry.now.words.table.shared.table_id pass.old pass.new }
            { work(&pool.words, pass) },
        );
    }
}

/// Splits `n` passes off, lets them make their rounds, and takes them in again.
fn rounds_and_join<R: Threads + Sync, B: PageBlock<N> + Drop + Send + Sync, const N: usize>(
    rt: &R,
    alloc: Global,
    pool: &Pool<Bare, B, N>,
    pass: &mut Pass<Bare>,
    n: usize,
) -> Result<(), Memory>
    requires ready { IsReadyOn pool.now.words B.tells pass.old }
    requires pages { 64 < pool.now.words.table.shared.key.pages }
    requires parts { n ≤ length (view pass.old).fresh }
    ensures goes { GoesOn pool.now.words B.tells pass.old pass.new }
{
    let mut given = pool.split(alloc, pass, n)?;
    work_all(rt, pool, given.as_mut_slice());
    join_each(pool, pass, given);
    Ok(())
}

/// A pool of 72 pages of zeros, all claimed, and its first pass. Eight numbers are free: 2, 3, 5, 61 and 63 of the first free-number word, and 64,
/// 66 and 71 of the second.
fn numbered_pool(alloc: Global) -> Result<(Pool<Bare, MemBlock<WORDS>, WORDS>, Pass<Bare>), Fail>
    ensures ready { IfOk result (λ made. IsReadyOn made.0.words ⟦<MemBlock<WORDS> as Block>⟧.tells made.1) }
    ensures pages { IfOk result (λ made. made.0.words.table.shared.key.pages ≡ 72) }
    ensures parts { IfOk result (λ made. 4 ≤ length (view made.1).fresh) }
{
    let blocks = zeros::<WORDS>(alloc, 72)?;
    let shape = Shape {
        pages: 72,
        frames: 1,
        next: 72,
        first_version: 0,
    };
    Ok(Pool::start(alloc, shape, blocks, &[2, 3, 5, 61, 63, 64, 66, 71], &[])?)
}

/// The same eight numbers are free.
fn eight_are_free<B: Block>(rt: &impl Abort, words: &Words<Bare, B>, pass: &mut Pass<Bare>)
    requires ready { IsReadyOn words.now B.tells pass.old }
    requires pages { 64 < words.now.table.shared.key.pages }
    ensures ready { IsReadyOn words.now B.tells pass.new }
    ensures parts { KeepsParts (view pass.old) (view pass.new) }
{
    let first = pbload(words, pass, 0);
    assert_eq!(rt; first, 0xa000_0000_0000_002c);
    let second = pbload(words, pass, 1);
    assert_eq!(rt; second, 0x85);
}

#[test]
fn four_workers_lose_no_number(rt: HostRuntime) -> Result<(), Fail> {
    let (pool, mut pass) = numbered_pool(rt.alloc())?;
    eight_are_free(&rt, pool.words(), &mut pass);
    rounds_and_join(&rt, rt.alloc(), &pool, &mut pass, 4)?;
    eight_are_free(&rt, pool.words(), &mut pass);
    Ok(())
}
