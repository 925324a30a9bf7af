// The passes of workers are joined, one after another.
ghost use Rattle.std.specs.Prelude.{All};
ghost use Rattle.vm_rule.specs.Prelude.{HoldsNoPage};
ghost use Rattle.vm_step.specs.Prelude.{GoesOn, HasJoined, IsReadyOn, MayStep, view};
ghost use Rattle.vm_workers.specs.Works.{views_of};

use crate::worker::PageWorker;
use vm_block::Block;
use vm_owner::Ungrouped;
use vm_pool_callers::pool::Pool;
use vm_rule::words::Pass;

/// Takes in the passes of the workers, which hold no page.
pub fn join_workers<U: Ungrouped, B: Block, const N: usize>(
    pool: &Pool<U, B, N>,
    pass: &mut Pass<U>,
    workers: Vec<PageWorker<U>>,
)
    requires ready { IsReadyOn pool.now.words B.tells pass.old }
    requires each { All (λ w. MayStep pool.now.words.table.shared.table_id w.pass) workers.items }
    requires nothing { All (λ w. HoldsNoPage (view w.pass)) workers.items }
    ensures goes { GoesOn pool.now.words B.tells pass.old pass.new }
    ensures joined { HasJoined (view pass.old) (views_of workers.items) (view pass.new) }
{
    for worker in workers {
        let PageWorker {
            pass: other,
            iface: _,
            job: _,
        } = worker;
        pool.join(pass, other);
    }
}
