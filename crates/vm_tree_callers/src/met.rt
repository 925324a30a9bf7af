// A put of one pass, and a get of the same key by another that it has met since, over the contracts of the calls alone: both entries stand in one
// history, the put first.
ghost use Rattle.std.specs.Prelude.{◌≡◌, ◌≤◌, IfSome, None};
ghost use Rattle.vm_step.specs.Prelude.{IsReadyOn, MayStep, view};
ghost use Rattle.vm_tree_callers.specs.Pairs.{AnswersPut};

use vm_block::Block;
use vm_kind::{Edits, TreeOf};
use vm_map::call::Reply;
use vm_pool_callers::pool::Pool;
use vm_rule::words::Pass;
use vm_tree_retry::tree_read::{TryRead, try_get};
use vm_tree_retry::tree_write::{TryWrite, try_put};

/// The reply of the get, where both calls were answered at once.
pub fn put_meet_get<K: Edits, B: Block, const N: usize>(
    pool: &Pool<TreeOf<K>, B, N>,
    first: &mut Pass<TreeOf<K>>,
    second: &mut Pass<TreeOf<K>>,
    key: &K::Key,
    value: u64,
) -> Option<Reply>
    requires first { IsReadyOn pool.now.words B.tells first.old }
    requires second { MayStep pool.now.words.table.shared.table_id second.old }
    requires pages { 1 ≤ pool.now.words.table.shared.key.pages }
    requires home { (view first.old).out ≡ None }
    ensures answers { IfSome result (λ reply. AnswersPut K.plain (K.rank key.now) value reply (view second.new) (view second.new)) }
{
    let TryWrite::Done(_was) = try_put(&pool.words, first, key, value) else {
        return None;
    };
    pool.meet(first, second);
    let TryRead::Done(reply) = try_get(&pool.words, second, key) else {
        return None;
    };
    Some(reply)
}
