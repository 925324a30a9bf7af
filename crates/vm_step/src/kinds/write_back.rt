// A page that is marked is locked for write-back, which is its one share; and that lock becomes exclusive.
ghost use Rattle.std.specs.Prelude.{◌<◌, ◌≡◌, ◌≢◌, ℕ};
ghost use Rattle.vm_event.specs.Prelude.{MARKED, state_of};
ghost use Rattle.vm_rule.specs.Prelude.{MayRaiseLock, UpgradeTold, WriteLockTold};
ghost use Rattle.vm_step.specs.Prelude.{found_by, GoesOn, MayStep, view};
ghost use Rattle.vm_step.specs.{declared.took.Took.TheVariants.Lost, steps.WriteBack.LockWriteBackIsItsEvent, steps.WriteBack.UpgradeIsItsEvent};

use crate::layout::state_place;
use crate::operation::compare_exchange;
use crate::state_words::word_with;
use crate::took::{Took, answer};
use std::marker::Brand;
use vm_block::Block;
use vm_event::StateWord;
use vm_owner::{Owner, Ungrouped};
use vm_rule::words::{Pass, Words};

/// Locks the page for write-back, where its word is the one expected: Marked. The pass has its one share.
pub fn lock_write_back<U: Ungrouped, B: Block>(
    words: &Words<U, B>,
    pass: &mut Pass<U>,
    p: u32,
    expects: u64,
) -> Took
    requires pass { MayStep words.now.table.shared.table_id pass.old }
    requires page { p < words.now.table.shared.key.pages }
    requires legal { state_of expects ≡ MARKED }
    ensures goes { GoesOn words.now B.tells pass.old pass.new }
    ensures told { WriteLockTold U.tied p expects (found_by expects result) (view pass.old) (view pass.new) }
    ensures lost { (word : ℕ) → result ≡ Lost word → word ≢ expects }
{
    let at = state_place(words, p);
    let new = word_with(1, expects);
    answer(
        compare_exchange::<U, B, u32, Brand>(words, pass, at, expects, new, p),
        expects,
    )
}

/// Locks a page exclusively that the pass has under write-back, where its word is the one expected: one share, below the last version.
pub fn upgrade<U: Ungrouped, B: Block>(
    words: &Words<U, B>,
    pass: &mut Pass<U>,
    p: u32,
    expects: u64,
) -> Took
    requires pass { MayStep words.now.table.shared.table_id pass.old }
    requires page { p < words.now.table.shared.key.pages }
    requires legal { MayRaiseLock (view pass.old) p expects }
    ensures goes { GoesOn words.now B.tells pass.old pass.new }
    ensures told { UpgradeTold U.tied p expects (found_by expects result) (view pass.old) (view pass.new) }
    ensures lost { (word : ℕ) → result ≡ Lost word → word ≢ expects }
{
    let at = state_place(words, p);
    let new = word_with(StateWord::LOCKED, expects);
    answer(
        compare_exchange::<U, B, u32, Brand>(words, pass, at, expects, new, p),
        expects,
    )
}

/// A lock for write-back that is tried sees the same.
pub fn lock_write_back_is_its_event<U: Owner, B: Block>()
    ensures { LockWriteBackIsItsEvent B.stored U.keeps U.tied B.tells }
{}

/// A lock for write-back that is tried to be made exclusive sees the same.
pub fn upgrade_is_its_event<U: Owner, B: Block>()
    ensures { UpgradeIsItsEvent B.stored U.keeps U.tied B.tells }
{}
