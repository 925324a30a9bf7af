// A layer that allows every entry, and workers that make some: the entries of each are found in the history of the pass that took them all in.
ghost use Rattle.std.specs.Prelude.{◌<◌, ◌≡◌, All, length, slice_index_or, ℕ};
ghost use Rattle.vm_step.specs.Prelude.{GoesOn, IsReadyOn, view};
ghost use Rattle.vm_workers.specs.Works.{AreFound, AreTallied, HasFoundWord, HasSaid, MakesEntries, MayWork};

use crate::joins::join_workers;
use crate::worker::PageWorker;
use std::thread;
use std::thread::Threads;
use vm_block::Block;
use vm_owner::{Owner, Ungrouped};
use vm_pool_callers::pool::Pool;
use vm_rule::words::{Pass, Words};
use vm_step::{look, look_silently};

/// An owner that keeps nothing and allows every entry.
#[derive(Drop)]
pub struct AllowAll;

impl Owner for AllowAll {
    type Said = u32;

    ghost keeps = { λ _ _. Unit {0} };

    ghost may_release = { λ _ _ _ _. Unit {0} };

    ghost may_read = { λ _ _ _ _. Unit {0} };

    ghost may_hold = { λ _ _ _. Unit {0} };

    ghost tied = { λ _ _ _ _ _. Unit {0} };

    ghost releases = { λ _ _ _ _ _ _ _ _ _. tt };

    ghost reads = { λ _ _ _ _ _ _ _ _. tt };

    ghost holds = { λ _ _ _ _ _ _ _ _. tt };

    ghost claims = { λ _ _ _ _ _. tt };

    ghost numbers = { λ _ _ _ _ _. tt };

    ghost ties = { λ _ _ _ _ _ _ _. tt };
}

impl Ungrouped for AllowAll {
    ghost use Rattle.std.proofs.Common.{refl};
    ghost use Rattle.vm_owner.proofs.Grouped.{takes-none};

    ghost ungrouped = { takes-none };

    ghost takes_none = { refl };
}

/// One call: the page's state word, by a look that says the page's number where it validates the look before it.
fn call<B: Block>(words: &Words<AllowAll, B>, pass: &mut Pass<AllowAll>, p: u32) -> u64
    requires ready { IsReadyOn words.now B.tells pass.old }
    requires page { p < words.now.table.shared.key.pages }
    ensures goes { GoesOn words.now B.tells pass.old pass.new }
    ensures says { MakesEntries (view pass.old) (view pass.new) }
    ensures found { HasFoundWord p result (view pass.old) (view pass.new) }
{
    look_silently(words, pass, p);
    look(words, pass, p, Some(&p))
}

/// The calls of a list, each with its answer.
fn serve<B: Block>(
    words: &Words<AllowAll, B>,
    pass: &mut Pass<AllowAll>,
    calls: &[u32],
    replies: &mut [u64],
)
    requires ready { IsReadyOn words.now B.tells pass.old }
    requires pages { All (λ p. p < words.now.table.shared.key.pages) calls.now }
    requires room { length replies.old ≡ length calls.now }
    ensures goes { GoesOn words.now B.tells pass.old pass.new }
    ensures says { MakesEntries (view pass.old) (view pass.new) }
    ensures room { length replies.new ≡ length calls.now }
    ensures found { AreFound (length calls.now) calls.now replies.new (view pass.old) (view pass.new) }
{
    for i in 0..calls.len() {
        replies[i] = call(words, pass, calls[i]);
    }
}

/// The calls of one worker.
fn work<B: Block>(words: &Words<AllowAll, B>, worker: &mut PageWorker<AllowAll>)
    requires may { MayWork words.now.table.shared.key B.tells words.now.table.shared.table_id worker.old }
    ensures done { HasSaid words.now.table.shared.key B.tells words.now.table.shared.table_id worker.old worker.new }
{
    serve(
        words,
        &mut worker.pass,
        worker.job.calls.as_slice(),
        worker.job.replies.as_mut_slice(),
    );
}

/// Each worker makes its calls, in as many threads as there are workers where those can be had.
pub fn tally_all<R: Threads + Sync, B: Block + Send + Sync>(
    rt: &R,
    words: &Words<AllowAll, B>,
    workers: &mut [PageWorker<AllowAll>],
)
    requires may { All (λ w. MayWork words.now.table.shared.key B.tells words.now.table.shared.table_id w) workers.old }
    ensures count { length workers.new ≡ length workers.old }
    ensures done { (i : ℕ) (d : _) → i < length workers.old
        → HasSaid words.now.table.shared.key B.tells words.now.table.shared.table_id (slice_index_or workers.old i d) (slice_index_or workers.new i d) }
{
    let count = workers.len();
    if count > 0 {
        thread::for_each_mut(rt, workers, count, &|_, worker| work(words, worker));
    }
}

/// The workers make their calls, each with its own pass, and then their passes are taken into this one.
pub fn tally_and_join<R: Threads + Sync, B: Block + Send + Sync, const N: usize>(
    rt: &R,
    pool: &Pool<AllowAll, B, N>,
    pass: &mut Pass<AllowAll>,
    mut workers: Vec<PageWorker<AllowAll>>,
)
    requires ready { IsReadyOn pool.now.words B.tells pass.old }
    requires may { All (λ w. MayWork pool.now.words.table.shared.key B.tells pool.now.words.table.shared.table_id w) workers.items }
    ensures goes { GoesOn pool.now.words B.tells pass.old pass.new }
    ensures joined { AreTallied pool.now.words.table.shared.key B.tells pool.now.words.table.shared.table_id workers.items (view pass.old) (view pass.new) }
{
    tally_all(rt, &pool.words, workers.as_mut_slice());
    join_workers(pool, pass, workers);
}
