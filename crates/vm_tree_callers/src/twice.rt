// Two gets of one pass, over their contracts alone: both entries stand in the history, in order, under one number with following counts, and
// the history is legal. A pass that is alone and knows the pages to be resident is answered at once.
ghost use Rattle.std.specs.Prelude.{◌≡◌, ◌≤◌, IfSome, IsSome, true};
ghost use Rattle.vm_tree_model.specs.Tree.{map_of};
ghost use Rattle.vm_step.specs.Prelude.{GoesOn, IsReadyOn, view};
ghost use Rattle.vm_tree_laws.specs.{History.IsLegal, Plain.plain_history};
ghost use Rattle.vm_tree_retry.specs.from_vm_tree_rule.Resident.{KnowsResident};
ghost use Rattle.vm_tree_callers.specs.Pairs.{HasGotTwice};

use vm_block::Block;
use vm_kind::{Kind, TreeOf};
use vm_map::call::Reply;
use vm_rule::words::{Pass, Words};
use vm_tree_retry::tree_read::{TryRead, try_get};

/// The replies of two gets, where each was answered at once.
pub fn get_twice<K: Kind, B: Block>(
    words: &Words<TreeOf<K>, B>,
    pass: &mut Pass<TreeOf<K>>,
    key: &K::Key,
) -> Option<(Reply, Reply)>
    requires ready { IsReadyOn words.now B.tells pass.old }
    requires pages { 1 ≤ words.now.table.shared.key.pages }
    ensures goes { GoesOn words.now B.tells pass.old pass.new }
    ensures mine { IfSome result (λ both. HasGotTwice K.plain (K.rank key.now) both.0 both.1 (view pass.old) (view pass.new)) }
    ensures legal { B.tells ≡ true → IfSome result (λ _. IsLegal (map_of K.layout (view pass.old).start.contents) (plain_history K.plain (view pass.new).seen)) }
    ensures sure { B.tells ≡ true → KnowsResident (view pass.old) → IsSome result }
{
    let TryRead::Done(first) = try_get(words, pass, key) else {
        return None;
    };
    let TryRead::Done(second) = try_get(words, pass, key) else {
        return None;
    };
    Some((first, second))
}
