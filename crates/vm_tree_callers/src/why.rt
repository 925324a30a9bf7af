// Why a get is to be tried again, over its contract alone: the word seen was found by a step of the call, and it is another word than the first
// one, or a Locked page's, where blocks tell their words. So no get answers so with words that it never loaded, or with equal words of a page that is not locked.
ghost use Rattle.std.specs.Prelude.{◌++◌, ◌≡◌, ◌≢◌, ◌≤◌, ◌⊎◌, IfSome};
ghost use Rattle.vm_event.specs.Prelude.{LOCKED, state_of};
ghost use Rattle.vm_step.specs.Prelude.{GoesOn, HasGiven, IsReadyOn, place_at, view};

use vm_block::Block;
use vm_kind::{Kind, TreeOf};
use vm_rule::words::{Pass, Words};
use vm_step::Saw;
use vm_tree_retry::tree_read::{TryRead, try_get};

/// The evidence of a get that is to be tried again.
pub fn why_again<K: Kind, B: Block>(
    words: &Words<TreeOf<K>, B>,
    pass: &mut Pass<TreeOf<K>>,
    key: &K::Key,
) -> Option<Saw>
    requires ready { IsReadyOn words.now B.tells pass.old }
    requires pages { 1 ≤ words.now.table.shared.key.pages }
    ensures goes { GoesOn words.now B.tells pass.old pass.new }
    ensures mine { IfSome result (λ _. (view pass.new).mine ≡ (view pass.old).mine) }
    ensures seen { IfSome result (λ saw. (done : _) × ((view pass.new).log ≡ (view pass.old).log ++ done) × HasGiven done (place_at saw.at) saw.seen) }
    ensures other { IfSome result (λ saw. (saw.first ≢ saw.seen) ⊎ (state_of saw.seen ≡ LOCKED)) }
{
    let TryRead::Again(saw) = try_get(words, pass, key) else {
        return None;
    };
    Some(saw)
}
