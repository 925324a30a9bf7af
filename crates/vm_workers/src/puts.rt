// Workers that set words of pages which do not all fit into memory: each brings the pages that it needs, by its own pass and interface, and gives
// its frames back. Their passes are joined afterwards, so that the first pass has all parts again.
ghost use Rattle.std.specs.Prelude.{[], ◌<◌, ◌≡◌, ◌≤◌, All, IfErr, length, slice_index_or, ℕ};
ghost use Rattle.vm_rule.specs.Prelude.{HoldsNoPage};
ghost use Rattle.vm_step.specs.Prelude.{GoesOn, IsAlone, IsReadyOn, IsSamePass, view};
ghost use Rattle.vm_workers.specs.Puts.{HasPages, HasPut, KeepsParts, MayStartWork};

use std::alloc::Global;
use std::thread;
use std::thread::Threads;
use vm_block::PageBlock;
use vm_event::Memory;
use vm_exmap::Interface;
use vm_guard::ExclusiveGuard;
use vm_owner::Bare;
use vm_pool_callers::pool::Pool;
use vm_pool_callers::whole_again::join_each;
use vm_rule::words::Pass;

/// How many pages each worker sets a word of.
const PAGES: u32 = 8;

/// How often a worker tries to set a word: a page may be locked by another worker, or its frame may go to another page, each time.
const TRIES: u32 = 100_000_000;

/// One try to set word `i` of page `p`: whether no other is needed. Where the page can't be locked it is brought, if it is evicted. A page whose
/// last word is 0 may be one that nobody uses, and is left as it is.
fn try_put<B: PageBlock<N>, const N: usize>(
    pool: &Pool<Bare, B, N>,
    pass: &mut Pass<Bare>,
    iface: &mut Interface,
    p: u32,
    i: usize,
    w: u64,
) -> bool
    requires may { MayStartWork pool.now.words.table.shared.key B.tells pool.now.words.table.shared.table_id iface.old.frames pass.old }
    requires page { (p < pool.now.words.table.shared.key.pages) × (p < pool.now.words.table.shared.key.next) }
    requires place { i < N }
    ensures pass { IsSamePass pass.old pass.new }
    ensures may { MayStartWork pool.now.words.table.shared.key B.tells pool.now.words.table.shared.table_id iface.new.frames pass.new }
    ensures parts { KeepsParts (view pass.old) (view pass.new) }
{
    match ExclusiveGuard::take(&pool.words, pass, p) {
        Ok(mut guard) => {
            if guard.read(&pool.words, pass, N - 1) == 0 {
                guard.release(&pool.words, pass, None);
                return true;
            }
            guard.set(&pool.words, pass, i, w);
            guard.release(&pool.words, pass, None);
            true
        }
        Err(_) => {
            pool.bring(pass, iface, p);
            false
        }
    }
}

/// Tries to set word `i` of page `p` until it is set, or the page is found to be one that nobody uses.
fn put<B: PageBlock<N>, const N: usize>(
    pool: &Pool<Bare, B, N>,
    pass: &mut Pass<Bare>,
    iface: &mut Interface,
    p: u32,
    i: usize,
    w: u64,
)
    requires may { MayStartWork pool.now.words.table.shared.key B.tells pool.now.words.table.shared.table_id iface.old.frames pass.old }
    requires page { (p < pool.now.words.table.shared.key.pages) × (p < pool.now.words.table.shared.key.next) }
    requires place { i < N }
    ensures pass { IsSamePass pass.old pass.new }
    ensures may { MayStartWork pool.now.words.table.shared.key B.tells pool.now.words.table.shared.table_id iface.new.frames pass.new }
    ensures parts { KeepsParts (view pass.old) (view pass.new) }
{
    for _ in 0..TRIES {
        if try_put(pool, pass, iface, p, i, w) {
            return;
        }
    }
}

/// The calls of one worker: its word of each page is set to 100 times its number, and the page's. It begins at a page of its own.
fn work<B: PageBlock<N>, const N: usize>(
    pool: &Pool<Bare, B, N>,
    number: usize,
    pass: &mut Pass<Bare>,
)
    requires may { MayStartWork pool.now.words.table.shared.key B.tells pool.now.words.table.shared.table_id [] pass.old }
    requires pages { HasPages pool.now.words.table.shared.key }
    ensures done { HasPut pool.now.words.table.shared.key B.tells pool.now.words.table.shared.table_id pass.old pass.new }
{
    let i = number % N;
    let mut iface = Interface::new(0, 1);
    for k in 0..PAGES {
        let p = (2 * (i as u32) + k) % PAGES;
        put(
            pool,
            pass,
            &mut iface,
            p,
            i,
            100 * (i as u64) + u64::from(p),
        );
    }
    iface.give_all(&pool.words, pass);
}

/// Each worker makes its calls, in as many threads as there are workers where those can be had.
pub fn put_all<R: Threads + Sync, B: PageBlock<N> + Send + Sync, const N: usize>(
    rt: &R,
    pool: &Pool<Bare, B, N>,
    passes: &mut [Pass<Bare>],
)
    requires may { All (λ p. MayStartWork pool.now.words.table.shared.key B.tells pool.now.words.table.shared.table_id [] p) passes.old }
    requires pages { HasPages pool.now.words.table.shared.key }
    ensures count { length passes.new ≡ length passes.old }
    ensures done { (i : ℕ) (d : _) → i < length passes.old
        → HasPut pool.now.words.table.shared.key B.tells pool.now.words.table.shared.table_id (slice_index_or passes.old i d) (slice_index_or passes.new i d) }
{
    let count = passes.len();
    if count > 0 {
        thread::for_each_mut(
            rt,
            passes,
            count,
            &|number: usize, pass: &mut Pass<Bare>|
                requires may { MayStartWork pool.now.words.table.shared.key B.tells pool.now.words.table.shared.table_id [] pass.old }
                requires pages { HasPages pool.now.words.table.shared.key }
                ensures { HasPut pool.entry.now.words.table.shared.key B.tells pool.entry.now.words.table.shared.table_id pass.old pass.new }
            { work(pool, number, pass) },
        );
    }
}

/// Splits `n` passes off, lets them set their words, and takes them in again: a pass that had all parts has them again, and holds no page. Where
/// there is no memory for the passes nothing has changed.
pub fn put_and_join<R: Threads + Sync, B: PageBlock<N> + Drop + Send + Sync, const N: usize>(
    rt: &R,
    alloc: Global,
    pool: &Pool<Bare, B, N>,
    pass: &mut Pass<Bare>,
    n: usize,
) -> Result<(), Memory>
    requires ready { IsReadyOn pool.now.words B.tells pass.old }
    requires alone { IsAlone (view pass.old) }
    requires holds { HoldsNoPage (view pass.old) }
    requires pages { HasPages pool.now.words.table.shared.key }
    requires parts { n ≤ length (view pass.old).fresh }
    ensures goes { GoesOn pool.now.words B.tells pass.old pass.new }
    ensures alone { IsAlone (view pass.new) }
    ensures holds { HoldsNoPage (view pass.new) }
    ensures refused { IfErr result (λ _. pass.new ≡ pass.old) }
{
    let mut given = pool.split(alloc, pass, n)?;
    put_all(rt, pool, given.as_mut_slice());
    join_each(pool, pass, given);
    Ok(())
}
