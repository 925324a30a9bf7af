// A put and then a get of the same key by one pass, over their contracts alone: both entries stand in the history in order, and where no other call
// came between them the get is answered the value, where blocks tell their words.
ghost use Rattle.std.specs.Prelude.{◌≡◌, ◌≤◌, IfSome, None};
ghost use Rattle.vm_step.specs.Prelude.{GoesOn, IsReadyOn, view};
ghost use Rattle.vm_tree_callers.specs.Pairs.{AnswersPut};

use vm_block::Block;
use vm_kind::{Edits, TreeOf};
use vm_map::call::Reply;
use vm_rule::words::{Pass, Words};
use vm_tree_retry::tree_read::{TryRead, try_get};
use vm_tree_retry::tree_write::{TryWrite, try_put};

/// The reply of the get, where both were answered at once.
pub fn put_then_get<K: Edits, B: Block>(
    words: &Words<TreeOf<K>, B>,
    pass: &mut Pass<TreeOf<K>>,
    key: &K::Key,
    value: u64,
) -> Option<Reply>
    requires ready { IsReadyOn words.now B.tells pass.old }
    requires pages { 1 ≤ words.now.table.shared.key.pages }
    requires home { (view pass.old).out ≡ None }
    ensures goes { GoesOn words.now B.tells pass.old pass.new }
    ensures answers { IfSome result (λ reply. AnswersPut K.plain (K.rank key.now) value reply (view pass.old) (view pass.new)) }
{
    let TryWrite::Done(_was) = try_put(words, pass, key, value) else {
        return None;
    };
    let TryRead::Done(reply) = try_get(words, pass, key) else {
        return None;
    };
    Some(reply)
}
