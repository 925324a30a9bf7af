// A pool whose pass is split and joined again is closed: it stands on the contracts of the pool alone, and shows that a pass that has taken
// in all that it split off has all parts again.
ghost use Rattle.std.specs.Prelude.{[], ◌≡◌, ◌≤◌, All, IfOk, length, map, true};
ghost use Rattle.vm_page.specs.Sizes.{IsSize};
ghost use Rattle.vm_rule.specs.Prelude.{block_words, HoldsNoPage, IsStarted, MayBegin};
ghost use Rattle.vm_step.specs.Prelude.{GoesOn, HasJoined, IsReadyOn, MayStep, view};

use std::alloc::Global;
use vm_block::{Block, PageBlock};
use vm_event::Memory;
use vm_owner::Ungrouped;
use vm_pool::{Closed, Pool, Shape};
use vm_rule::words::Pass;

/// Takes in each of the passes, which hold no page.
pub fn join_each<U: Ungrouped, B: Block + Drop, const N: usize>(
    pool: &Pool<U, B, N>,
    pass: &mut Pass<U>,
    others: Vec<Pass<U>>,
)
    requires ready { IsReadyOn pool.now.words B.tells pass.old }
    requires each { All (λ p. MayStep pool.now.words.table.shared.table_id p) others.items }
    requires nothing { All (λ p. HoldsNoPage (view p)) others.items }
    ensures goes { GoesOn pool.now.words B.tells pass.old pass.new }
    ensures joined { HasJoined (view pass.old) (map (λ p. view p) others.items) (view pass.new) }
{
    for other in others {
        pool.join(pass, other);
    }
}

/// Starts a pool, splits `n` passes off the first one, takes them in again, and closes the pool.
pub fn split_and_join<U: Ungrouped, B: PageBlock<N> + Drop, const N: usize>(
    alloc: Global,
    shape: Shape,
    blocks: Vec<B>,
    n: usize,
) -> Result<Closed<U, B>, Memory>
    requires sized { IsSize N }
    requires takes { U.takes_size N ≡ true }
    requires pages { shape.pages ≡ length blocks.items }
    requires fits { IsStarted shape.first_version shape.next shape.frames (length blocks.items) }
    requires begins { B.tells ≡ true → MayBegin U.keeps shape.next [] (block_words (map B.stored blocks.items)) }
    requires parts { n ≤ 4294967295 }
    ensures count { IfOk result (λ end. length end.blocks.items ≡ length blocks.items) }
{
    let (pool, mut pass) = Pool::start(alloc, shape, blocks, &[], &[])?;
    let given = pool.split(alloc, &mut pass, n)?;
    join_each(&pool, &mut pass, given);
    match pool.close(alloc, pass) {
        Ok(end) => Ok(end),
        Err(_) => Err(Memory),
    }
}

/// Splits two passes off, lets them meet, and takes both in again.
pub fn meet_and_join<U: Ungrouped, B: Block, const N: usize>(
    pool: &Pool<U, B, N>,
    pass: &mut Pass<U>,
)
    requires ready { IsReadyOn pool.now.words B.tells pass.old }
    requires parts { 2 ≤ length (view pass.old).fresh }
    ensures goes { GoesOn pool.now.words B.tells pass.old pass.new }
{
    let mut first = pool.split_one(pass);
    let mut second = pool.split_one(pass);
    pool.meet(&mut first, &mut second);
    pool.join(pass, first);
    pool.join(pass, second);
}
