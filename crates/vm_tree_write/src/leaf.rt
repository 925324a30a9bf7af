// The leaf is locked at the version at which it was read, written, and released with what is said.
ghost use Rattle.std.specs.Prelude.{◌++◌, ◌≡◌, IfErr, IfOk, length, None};
ghost use Rattle.vm_tree_model.specs.Page.{IsLeaf, node_of};
ghost use Rattle.vm_rule.specs.Prelude.{loads_at};
ghost use Rattle.vm_tree_merge.specs.from_vm_step.Prelude.{GoesOn, IsReadyOn, UnlockedExpected, view};
ghost use Rattle.vm_tree_merge.specs.from_vm_guard.Denied.{AgainOrWorn, IsDenied, KeptWord};
ghost use Rattle.vm_tree_merge.specs.from_vm_guard.Guards.{IsReading, placed};
ghost use Rattle.vm_tree_laws.specs.May.{IsEdit};
ghost use Rattle.vm_tree_merge.specs.from_vm_tree_rule.Resident.{IsKnownNow, KnowsResident};
ghost use Rattle.vm_tree_merge.specs.from_vm_tree_split.Prepares.{SaysWorn};
ghost use Rattle.vm_tree_write.specs.Writes.{IsWriteOf};

use vm_block::Block;
use vm_rule::words::{Pass, Words};
use vm_tree_merge::guard::{Deny, OptGuard};
use vm_tree_merge::kind::{Edits, TreeOf};
use vm_tree_merge::tree_split::{Edited, redraft};

/// Locks the leaf whose words stand in `before`, makes the edit, and releases it: what is said becomes an entry there.
pub fn write_leaf<K: Edits, B: Block>(
    words: &Words<TreeOf<K>, B>,
    pass: &mut Pass<TreeOf<K>>,
    guard: OptGuard,
    before: &K::Page,
    edit: K::Edit,
    said: &K::Said,
) -> Result<(), Deny>
    requires ready { IsReadyOn words.now B.tells pass.old }
    requires reading { IsReading guard.pid guard.word guard.frame (view pass.old) }
    requires home { (view pass.old).out ≡ None }
    requires size { length (K.words_of before.now) ≡ K.layout.words }
    requires loads { (earlier : _) × (loads_at (view pass.old) guard.pid ≡ earlier ++ placed 0 (K.words_of before.now)) }
    requires leaf { (node_of K.layout (K.words_of before.now)).tag ≡ 2 }
    requires edit { IsLeaf K.layout (K.words_of before.now)
        → IsEdit K.layout (K.words_of before.now) (K.edited (K.words_of before.now) edit) (K.plain said.now).call (K.plain said.now).reply }
    ensures goes { GoesOn words.now B.tells pass.old pass.new }
    ensures ok { IfOk result (λ _. IsWriteOf K.plain K.layout (K.plain said.now) guard.pid guard.word (K.words_of before.now) (view pass.old) (view pass.old) (view pass.new)) }
    ensures err { IfErr result (λ deny. IsDenied AgainOrWorn (KeptWord guard.word) UnlockedExpected guard.pid deny (view pass.old) (view pass.new)) }
    ensures sure { IsKnownNow guard.pid guard.word (view pass.old) → IfErr result SaysWorn }
    ensures known { IsKnownNow guard.pid guard.word (view pass.old) → KnowsResident (view pass.new) }
{
    let mut held = match guard.upgrade(words, pass) {
        Ok(held) => held,
        Err(deny) => return Err(deny),
    };
    let changes = K::changes(before, &edit);
    let after: Edited<'_, K> = Edited {
        page: before,
        edit,
        changes,
    };
    redraft(words, pass, &mut held, before, &after);
    held.release(words, pass, Some(said));
    Ok(())
}
