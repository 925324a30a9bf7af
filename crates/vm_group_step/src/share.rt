// A share of each page of a group is taken, and given up.
ghost use Rattle.std.specs.Prelude.{◌≡◌, ◌≢◌, None, ℕ};
ghost use Rattle.vm_event.specs.Prelude.{MayShare};
ghost use Rattle.vm_rule.specs.Prelude.{UnshareTold};
ghost use Rattle.vm_step.specs.Prelude.{found_by, GoesOn, MayStep, MayUnshare, view};
ghost use Rattle.vm_step.specs.{declared.took.Took.TheVariants.Lost, Over.InTurn, steps.Share.LockSharedTells};
ghost use Rattle.vm_group_step.specs.EventKinds.{ShareGroupIsItsEvent, UnshareGroupIsItsEvent};
ghost use Rattle.vm_group_step.specs.Heads.{EachUnder, IsHead, pages_under};

use std::marker::Brand;
use vm_block::Block;
use vm_owner::Owner;
use vm_rule::words::{Pass, Words};
use vm_step::Took;
use vm_step::making::{SHARE, answer, compare_exchange, fetch_sub, shared_word, state_place};

/// Takes one share of each page of a group, where the group's word is the one expected: with room for a share, or Marked. Nothing is said.
pub fn share_group<U: Owner, B: Block>(
    words: &Words<U, B>,
    pass: &mut Pass<U>,
    h: u32,
    expects: u64,
) -> Took
    requires pass { MayStep words.now.table.shared.table_id pass.old }
    requires head { IsHead words.now.table.shared.key h }
    requires legal { MayShare expects }
    ensures goes { GoesOn words.now B.tells pass.old pass.new }
    ensures told { InTurn (λ q. LockSharedTells U.keeps U.tied B.tells q expects None) (pages_under words.now.table.shared.key h)
        (found_by expects result) (view pass.old) (view pass.new) }
    ensures lost { (word : ℕ) → result ≡ Lost word → word ≢ expects }
{
    let at = state_place(words, h);
    let new = shared_word(expects);
    answer(
        compare_exchange::<U, B, u32, Brand>(words, pass, at, expects, new, h),
        expects,
    )
}

/// Gives one share of each page of a group up, and answers the group's word before.
pub fn unshare_group<U: Owner, B: Block>(words: &Words<U, B>, pass: &mut Pass<U>, h: u32) -> u64
    requires pass { MayStep words.now.table.shared.table_id pass.old }
    requires head { IsHead words.now.table.shared.key h }
    requires legal { EachUnder words.now.table.shared.key h (MayUnshare (view pass.old)) }
    ensures goes { GoesOn words.now B.tells pass.old pass.new }
    ensures told { InTurn UnshareTold (pages_under words.now.table.shared.key h) result (view pass.old) (view pass.new) }
{
    let at = state_place(words, h);
    fetch_sub::<U, B, u32, Brand>(words, pass, at, SHARE, h)
}

/// A share of a group that is tried is one event of the machine with groups.
pub fn share_group_is_its_event<U: Owner, B: Block>()
    ensures { ShareGroupIsItsEvent B.stored U.keeps U.tied B.tells }
{}

/// So is a share that is given up.
pub fn unshare_group_is_its_event<U: Owner, B: Block>()
    ensures { UnshareGroupIsItsEvent B.stored U.keeps U.tied B.tells }
{}
