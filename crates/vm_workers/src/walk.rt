// The parallel walk: workers that look at pages, each with its own pass.
ghost use Rattle.std.specs.Prelude.{◌<◌, ◌≡◌, All, length, slice_index_or, ℕ};
ghost use Rattle.vm_step.specs.Prelude.{GoesOn, IsReadyOn, view};
ghost use Rattle.vm_workers.specs.Works.{AreDoneAndJoined, AreFound, HasDoneJob, HasFoundWord, MayWork, SaysNothing};

use crate::joins::join_workers;
use crate::worker::PageWorker;
use std::thread;
use std::thread::Threads;
use vm_block::Block;
use vm_owner::Ungrouped;
use vm_pool_callers::pool::Pool;
use vm_rule::words::{Pass, Words};
use vm_step::look_silently;

/// One call: the page's state word.
fn call<U: Ungrouped, B: Block>(words: &Words<U, B>, pass: &mut Pass<U>, p: u32) -> u64
    requires ready { IsReadyOn words.now B.tells pass.old }
    requires page { p < words.now.table.shared.key.pages }
    ensures goes { GoesOn words.now B.tells pass.old pass.new }
    ensures stays { SaysNothing (view pass.old) (view pass.new) }
    ensures found { HasFoundWord p result (view pass.old) (view pass.new) }
{
    look_silently(words, pass, p)
}

/// The calls of a list, each with its answer.
fn serve<U: Ungrouped, B: Block>(
    words: &Words<U, B>,
    pass: &mut Pass<U>,
    calls: &[u32],
    replies: &mut [u64],
)
    requires ready { IsReadyOn words.now B.tells pass.old }
    requires pages { All (λ p. p < words.now.table.shared.key.pages) calls.now }
    requires room { length replies.old ≡ length calls.now }
    ensures goes { GoesOn words.now B.tells pass.old pass.new }
    ensures stays { SaysNothing (view pass.old) (view pass.new) }
    ensures room { length replies.new ≡ length calls.now }
    ensures found { AreFound (length calls.now) calls.now replies.new (view pass.old) (view pass.new) }
{
    for i in 0..calls.len() {
        replies[i] = call(words, pass, calls[i]);
    }
}

/// The calls of one worker.
fn work<U: Ungrouped, B: Block>(words: &Words<U, B>, worker: &mut PageWorker<U>)
    requires may { MayWork words.now.table.shared.key B.tells words.now.table.shared.table_id worker.old }
    ensures done { HasDoneJob words.now.table.shared.key B.tells words.now.table.shared.table_id worker.old worker.new }
{
    serve(
        words,
        &mut worker.pass,
        worker.job.calls.as_slice(),
        worker.job.replies.as_mut_slice(),
    );
}

/// Each worker makes its calls, in as many threads as there are workers where those can be had.
pub fn run_all<R: Threads + Sync, U: Ungrouped + Send + Sync, B: Block + Send + Sync>(
    rt: &R,
    words: &Words<U, B>,
    workers: &mut [PageWorker<U>],
)
    requires may { All (λ w. MayWork words.now.table.shared.key B.tells words.now.table.shared.table_id w) workers.old }
    ensures count { length workers.new ≡ length workers.old }
    ensures done { (i : ℕ) (d : _) → i < length workers.old
        → HasDoneJob words.now.table.shared.key B.tells words.now.table.shared.table_id (slice_index_or workers.old i d) (slice_index_or workers.new i d) }
{
    let count = workers.len();
    if count > 0 {
        thread::for_each_mut(rt, workers, count, &|_, worker| work(words, worker));
    }
}

/// The workers make their calls, each with its own pass, and then their passes are taken into this one.
pub fn run_and_join<
    R: Threads + Sync,
    U: Ungrouped + Send + Sync,
    B: Block + Send + Sync,
    const N: usize,
>(rt: &R, pool: &Pool<U, B, N>, pass: &mut Pass<U>, mut workers: Vec<PageWorker<U>>)
    requires ready { IsReadyOn pool.now.words B.tells pass.old }
    requires may { All (λ w. MayWork pool.now.words.table.shared.key B.tells pool.now.words.table.shared.table_id w) workers.items }
    ensures goes { GoesOn pool.now.words B.tells pass.old pass.new }
    ensures joined { AreDoneAndJoined pool.now.words.table.shared.key B.tells pool.now.words.table.shared.table_id workers.items (view pass.old) (view pass.new) }
{
    run_all(rt, &pool.words, workers.as_mut_slice());
    join_workers(pool, pass, workers);
}
