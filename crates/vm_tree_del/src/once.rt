// A del that never waits and merges no leaf: it answers, or says why it is to be tried again.
ghost use Rattle.std.specs.Prelude.{◌≡◌, ◌≤◌, List, None, true, ℕ};
ghost use Rattle.vm_map.specs.declared.call.Call.TheVariants.{Del};
ghost use Rattle.vm_map.specs.declared.call.Reply.TheVariants.{Gone};
ghost use Rattle.vm_tree_model.specs.{Node.Covers, Page.node_of};
ghost use Rattle.vm_tree_write.specs.from_vm_step.Prelude.{GoesOn, IsReadyOn, UnlockedExpected, view};
ghost use Rattle.vm_tree_write.specs.from_vm_guard.Denied.{AgainOrWorn, IsDenied, KeptWord};
ghost use Rattle.vm_tree_write.specs.from_vm_guard.Guards.{IsReading};
ghost use Rattle.vm_tree_write.specs.from_vm_tree_rule.{Resident.IsKnownNow, Resident.KnowsResident};
ghost use Rattle.vm_tree_write.specs.from_vm_tree_rule.{Seeks.HasLoaded, Seeks.HasRead, Standing.Awaits, Standing.IsOpened};
ghost use Rattle.vm_tree_write.specs.from_vm_tree_rule.Turns.{IsTurnedBack};
ghost use Rattle.vm_tree_write.specs.from_vm_tree_read.Reads.{TellReply};
ghost use Rattle.vm_tree_write.specs.from_vm_tree_split.Prepares.{SaysWorn};
ghost use Rattle.vm_tree_write.specs.Writes.{HasKeyIn, IsFinal, with_reply};
ghost use Rattle.vm_tree_del.specs.Dels.{IsPlainDel};

use vm_block::Block;
use vm_map::call::Reply;
use vm_rule::words::{Pass, Words};
use vm_tree_write::TryWrite;
use vm_tree_write::guard::{Deny, OptGuard};
use vm_tree_write::kind::{Edits, Kind, TreeOf};
use vm_tree_write::leaf::write_leaf;
use vm_tree_write::tree_read::{answer, find_in_place, leaf_at, read_leaf};
use vm_tree_write::tree_rule::Turn;
use vm_tree_write::write::Tried;

/// Why there is no answer yet.
fn not_yet<K: Kind>(turn: Turn) -> Tried
    ensures del { (key : _) (v w : _) → IsTurnedBack K.layout v key turn w → IsPlainDel K.plain K.layout key (with_reply Gone result) v w }
{
    match turn {
        Turn::Again(saw) => Tried::Again(saw),
        Turn::Need(pid) => Tried::Need(pid),
        Turn::Damaged(pid) => Tried::Damaged(pid),
    }
}

/// Why the leaf was not written.
fn unwritten<K: Kind>(deny: Deny) -> Tried
    requires kind { AgainOrWorn deny }
    ensures del { (key p word frame : _) (page : _) (v x w : _) → IsOpened v p word frame x → Awaits K.layout x p word 0 key → HasRead x p page
        → ((node_of K.layout page).tag ≡ 2) × Covers (node_of K.layout page) key → HasKeyIn K.layout page key
        → IsDenied AgainOrWorn (KeptWord word) UnlockedExpected p deny x w → IsPlainDel K.plain K.layout key (with_reply Gone result) v w }
    ensures settled { SaysWorn deny → IsFinal (with_reply Gone result) }
{
    match deny {
        Deny::Again(saw) => Tried::Again(saw),
        Deny::Worn(pid) => Tried::Worn(pid),
        Deny::Need(_) => unreachable!(),
        Deny::Crowded(_) => unreachable!(),
    }
}

/// Answers a del of a key that the leaf has not, as words loaded of it tell, once they are validated.
fn missed<K: Kind, B: Block>(
    words: &Words<TreeOf<K>, B>,
    pass: &mut Pass<TreeOf<K>>,
    guard: &OptGuard,
    key: &K::Key,
) -> Tried
    requires ready { IsReadyOn words.now B.tells pass.old }
    requires reading { IsReading guard.now.pid guard.now.word guard.now.frame (view pass.old) }
    requires proves { (loaded : List (ℕ × ℕ)) × HasLoaded (view pass.old) guard.now.pid loaded × TellReply K.layout loaded (record { call = Del (K.rank key.now); reply = Gone None }) }
    ensures goes { GoesOn words.now B.tells pass.old pass.new }
    ensures del { (v : _) → IsOpened v guard.now.pid guard.now.word guard.now.frame (view pass.old) → IsPlainDel K.plain K.layout (K.rank key.now) (with_reply Gone result) v (view pass.new) }
    ensures sure { IsKnownNow guard.now.pid guard.now.word (view pass.old) → IsFinal (with_reply Gone result) }
    ensures known { IsKnownNow guard.now.pid guard.now.word (view pass.old) → KnowsResident (view pass.new) }
{
    let said = K::gone(key, None);
    match answer(words, pass, guard, &said) {
        Ok(()) => Tried::Done(None),
        Err(saw) => Tried::Again(saw),
    }
}

/// Takes the pair of the key out of its leaf, or says why not. The leaf is read whole only where it has the key.
pub fn del_once<K: Edits, B: Block>(
    words: &Words<TreeOf<K>, B>,
    pass: &mut Pass<TreeOf<K>>,
    key: &K::Key,
) -> Tried
    requires ready { IsReadyOn words.now B.tells pass.old }
    requires pages { 1 ≤ words.now.table.shared.key.pages }
    requires home { (view pass.old).out ≡ None }
    ensures goes { GoesOn words.now B.tells pass.old pass.new }
    ensures tried { IsPlainDel K.plain K.layout (K.rank key.now) (with_reply Gone result) (view pass.old) (view pass.new) }
    ensures sure { B.tells ≡ true → KnowsResident (view pass.old) → IsFinal (with_reply Gone result) }
    ensures known { B.tells ≡ true → KnowsResident (view pass.old) → KnowsResident (view pass.new) }
{
    let guard = match leaf_at(words, pass, key) {
        Ok(guard) => guard,
        Err(turn) => return not_yet::<K>(turn),
    };
    match find_in_place(words, pass, &guard, key) {
        None => return missed(words, pass, &guard, key),
        Some(_) => {}
    }
    let mut page = K::zero();
    if let Err(turn) = read_leaf(words, pass, &guard, key, &mut page) {
        return not_yet::<K>(turn);
    }
    match K::del_edit(&page, key) {
        None => missed(words, pass, &guard, key),
        Some((was, edit)) => {
            let said = K::gone(key, Some(was));
            match write_leaf(words, pass, guard, &page, edit, &said) {
                Ok(()) => Tried::Done(Some(was)),
                Err(deny) => unwritten::<K>(deny),
            }
        }
    }
}

/// Takes the pair of the key out of its leaf. Where the leaf has none nothing is locked.
pub fn try_del<K: Edits, B: Block>(
    words: &Words<TreeOf<K>, B>,
    pass: &mut Pass<TreeOf<K>>,
    key: &K::Key,
) -> TryWrite
    requires ready { IsReadyOn words.now B.tells pass.old }
    requires pages { 1 ≤ words.now.table.shared.key.pages }
    requires home { (view pass.old).out ≡ None }
    ensures goes { GoesOn words.now B.tells pass.old pass.new }
    ensures tried { IsPlainDel K.plain K.layout (K.rank key.now) result (view pass.old) (view pass.new) }
    ensures sure { B.tells ≡ true → KnowsResident (view pass.old) → IsFinal result }
    ensures known { B.tells ≡ true → KnowsResident (view pass.old) → KnowsResident (view pass.new) }
{
    match del_once(words, pass, key) {
        Tried::Done(was) => TryWrite::Done(Reply::Gone(was)),
        Tried::Again(saw) => TryWrite::Again(saw),
        Tried::Need(pid) => TryWrite::Need(pid),
        Tried::Worn(pid) => TryWrite::Worn(pid),
        Tried::Tight(pid) => TryWrite::Tight(pid),
        Tried::Damaged(pid) => TryWrite::Damaged(pid),
    }
}
