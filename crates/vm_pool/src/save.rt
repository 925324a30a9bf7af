// A pool's dirty pages are written, and the pool is closed. It stands on the contracts of `flush` and `close` alone, and shows that they are
// enough for a caller: where no write failed, each block has the last words of its page.
ghost use Rattle.std.specs.Prelude.{◌<◌, ◌≡◌, IfErr, IfOk, length, map, None, true, ℕ};
ghost use Rattle.vm_event.specs.Prelude.{at};
ghost use Rattle.vm_rule.specs.Prelude.{HoldsNoPage, last_of, no_block};
ghost use Rattle.vm_clock.specs.from_vm_step.Prelude.{IsAlone, IsReadyOn, view};
ghost use Rattle.vm_evict.specs.Flushes.{IsFlushed};
ghost use Rattle.vm_pool.specs.Closing.{AreSums, IsClosed, view_at_end};

use crate::ended::Closed;
use crate::pool::Pool;
use std::alloc::Global;
use vm_block::{Block, PageBlock};
use vm_evict::{Flushed, flush};
use vm_owner::{Owner, Ungrouped};
use vm_rule::words::Pass;

/// A pool that was flushed and closed: what the flush did, and what is left of the pool.
pub struct Saved<U: Owner, B: Block> {
    pub report: Flushed,
    pub closed: Closed<U, B>,
}

/// Writes all dirty pages to their blocks and ends the pool, with a pass that is alone and holds no page. Where no write failed, and the blocks
/// tell their words, each block has the last words of its page. Where there is no memory for the list of blocks, pool and pass come back with
/// the pages written.
pub fn flush_and_close<U: Ungrouped, B: PageBlock<N> + Drop, const N: usize>(
    pool: Pool<U, B, N>,
    alloc: Global,
    mut pass: Pass<U>,
) -> Result<Saved<U, B>, (Pool<U, B, N>, Pass<U>)>
    requires ready { IsReadyOn pool.words B.tells pass }
    requires alone { IsAlone (view pass) }
    requires holds { HoldsNoPage (view pass) }
    ensures words { IfOk result (λ saved. B.tells ≡ true → saved.report.failed ≡ 0 → (p : ℕ) → p < pool.words.table.shared.key.pages
        → (at no_block (map B.stored saved.closed.blocks.items) p).words ≡ (last_of (view pass) p).words) }
    ensures count { IfOk result (λ saved. length saved.closed.blocks.items ≡ pool.words.table.shared.key.pages) }
    ensures busy { IfOk result (λ saved. saved.report.busy ≡ 0) }
    ensures first { IfOk result (λ saved. saved.report.failed ≡ 0 → saved.report.first ≡ None) }
    ensures flushed { IfOk result (λ saved. IsFlushed saved.report (view pass) (view_at_end saved.closed.ended)) }
    ensures sums { IfOk result (λ saved. AreSums (map B.stored saved.closed.blocks.items) saved.closed.ended) }
    ensures closed { IfOk result (λ saved. IsClosed B.tells U.keeps (view_at_end saved.closed.ended)
        (map B.stored saved.closed.blocks.items) saved.closed.next) }
    ensures pool { IfErr result (λ back. back.0 ≡ pool) }
    ensures ready { IfErr result (λ back. IsReadyOn pool.words B.tells back.1) }
    ensures alone { IfErr result (λ back. IsAlone (view back.1)) }
    ensures holds { IfErr result (λ back. HoldsNoPage (view back.1)) }
    ensures kept { IfErr result (λ back. (p : ℕ) → (last_of (view back.1) p).words ≡ (last_of (view pass) p).words) }
{
    let report = flush::<U, B, N>(&pool.words, &mut pass);
    let closed = pool.close(alloc, pass)?;
    Ok(Saved { report, closed })
}
