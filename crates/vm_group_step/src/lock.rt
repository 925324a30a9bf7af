// The pages of a group are locked: exclusively, for write-back, and exclusively after write-back.
ghost use Rattle.std.specs.Prelude.{◌≡◌, ◌≢◌, ℕ};
ghost use Rattle.vm_event.specs.Prelude.{MARKED, MayLock, state_of};
ghost use Rattle.vm_rule.specs.Prelude.{LockTold, MayRaiseLock, UpgradeTold, WriteLockTold};
ghost use Rattle.vm_step.specs.Prelude.{found_by, GoesOn, MayStep, view};
ghost use Rattle.vm_step.specs.{declared.took.Took.TheVariants.Lost, Over.InTurn};
ghost use Rattle.vm_group_step.specs.EventKinds.{LockGroupIsItsEvent, LockGroupWriteBackIsItsEvent, UpgradeGroupIsItsEvent};
ghost use Rattle.vm_group_step.specs.{Heads.EachUnder, Heads.IsHead, Heads.pages_under};

use std::marker::Brand;
use vm_block::Block;
use vm_event::StateWord;
use vm_owner::Owner;
use vm_rule::words::{Pass, Words};
use vm_step::Took;
use vm_step::making::{answer, compare_exchange, state_place, word_with};

/// Locks the pages of a group exclusively, where the group's word is the one expected: Unlocked, Marked or Evicted, below the last version.
pub fn lock_group<U: Owner, B: Block>(
    words: &Words<U, B>,
    pass: &mut Pass<U>,
    h: u32,
    expects: u64,
) -> Took
    requires pass { MayStep words.now.table.shared.table_id pass.old }
    requires head { IsHead words.now.table.shared.key h }
    requires legal { MayLock expects }
    ensures goes { GoesOn words.now B.tells pass.old pass.new }
    ensures told { InTurn (λ q. LockTold U.tied q expects) (pages_under words.now.table.shared.key h) (found_by expects result) (view pass.old) (view pass.new) }
    ensures lost { (word : ℕ) → result ≡ Lost word → word ≢ expects }
{
    let at = state_place(words, h);
    let new = word_with(StateWord::LOCKED, expects);
    answer(
        compare_exchange::<U, B, u32, Brand>(words, pass, at, expects, new, h),
        expects,
    )
}

/// Locks the pages of a group for write-back, where the group's word is the one expected: Marked.
pub fn lock_group_write_back<U: Owner, B: Block>(
    words: &Words<U, B>,
    pass: &mut Pass<U>,
    h: u32,
    expects: u64,
) -> Took
    requires pass { MayStep words.now.table.shared.table_id pass.old }
    requires head { IsHead words.now.table.shared.key h }
    requires legal { state_of expects ≡ MARKED }
    ensures goes { GoesOn words.now B.tells pass.old pass.new }
    ensures told { InTurn (λ q. WriteLockTold U.tied q expects) (pages_under words.now.table.shared.key h) (found_by expects result) (view pass.old) (view pass.new) }
    ensures lost { (word : ℕ) → result ≡ Lost word → word ≢ expects }
{
    let at = state_place(words, h);
    let new = word_with(1, expects);
    answer(
        compare_exchange::<U, B, u32, Brand>(words, pass, at, expects, new, h),
        expects,
    )
}

/// Locks the pages of a group exclusively, which the pass has locked for write-back, where the group's word is the one expected.
pub fn upgrade_group<U: Owner, B: Block>(
    words: &Words<U, B>,
    pass: &mut Pass<U>,
    h: u32,
    expects: u64,
) -> Took
    requires pass { MayStep words.now.table.shared.table_id pass.old }
    requires head { IsHead words.now.table.shared.key h }
    requires legal { EachUnder words.now.table.shared.key h (λ q. MayRaiseLock (view pass.old) q expects) }
    ensures goes { GoesOn words.now B.tells pass.old pass.new }
    ensures told { InTurn (λ q. UpgradeTold U.tied q expects) (pages_under words.now.table.shared.key h) (found_by expects result) (view pass.old) (view pass.new) }
    ensures lost { (word : ℕ) → result ≡ Lost word → word ≢ expects }
{
    let at = state_place(words, h);
    let new = word_with(StateWord::LOCKED, expects);
    answer(
        compare_exchange::<U, B, u32, Brand>(words, pass, at, expects, new, h),
        expects,
    )
}

/// A lock of a group that is tried is one event of the machine with groups.
pub fn lock_group_is_its_event<U: Owner, B: Block>()
    ensures { LockGroupIsItsEvent B.stored U.keeps U.tied B.tells }
{}

/// So is a lock for write-back.
pub fn lock_group_write_back_is_its_event<U: Owner, B: Block>()
    ensures { LockGroupWriteBackIsItsEvent B.stored U.keeps U.tied B.tells }
{}

/// So is one that is to become exclusive.
pub fn upgrade_group_is_its_event<U: Owner, B: Block>()
    ensures { UpgradeGroupIsItsEvent B.stored U.keeps U.tied B.tells }
{}
