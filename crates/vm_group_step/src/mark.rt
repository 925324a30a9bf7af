// The pages of a group are marked, and their marks taken away.
ghost use Rattle.std.specs.Prelude.{◌≡◌, ◌≢◌, ℕ};
ghost use Rattle.vm_event.specs.Prelude.{MARKED, state_of, UNLOCKED, version_of, word_of};
ghost use Rattle.vm_rule.specs.Prelude.{MarkTold};
ghost use Rattle.vm_step.specs.Prelude.{found_by, GoesOn, MayStep, view};
ghost use Rattle.vm_step.specs.{declared.took.Took.TheVariants.Lost, Over.InTurn};
ghost use Rattle.vm_group_step.specs.EventKinds.{MarkGroupIsItsEvent, UnmarkGroupIsItsEvent};
ghost use Rattle.vm_group_step.specs.Heads.{IsHead, pages_under};

use std::marker::Brand;
use vm_block::Block;
use vm_event::StateWord;
use vm_owner::Owner;
use vm_rule::words::{Pass, Words};
use vm_step::Took;
use vm_step::making::{answer, compare_exchange, state_place, word_with};

/// Marks the pages of a group, where the group's word is the one expected: Unlocked.
pub fn mark_group<U: Owner, B: Block>(
    words: &Words<U, B>,
    pass: &mut Pass<U>,
    h: u32,
    expects: u64,
) -> Took
    requires pass { MayStep words.now.table.shared.table_id pass.old }
    requires head { IsHead words.now.table.shared.key h }
    requires legal { state_of expects ≡ UNLOCKED }
    ensures goes { GoesOn words.now B.tells pass.old pass.new }
    ensures told { InTurn (λ q n v w. MarkTold q expects n (word_of MARKED (version_of expects)) v w) (pages_under words.now.table.shared.key h)
        (found_by expects result) (view pass.old) (view pass.new) }
    ensures lost { (word : ℕ) → result ≡ Lost word → word ≢ expects }
{
    let at = state_place(words, h);
    let new = word_with(StateWord::MARKED, expects);
    answer(
        compare_exchange::<U, B, u32, Brand>(words, pass, at, expects, new, h),
        expects,
    )
}

/// Takes the marks of a group's pages away, where the group's word is the one expected: Marked.
pub fn unmark_group<U: Owner, B: Block>(
    words: &Words<U, B>,
    pass: &mut Pass<U>,
    h: u32,
    expects: u64,
) -> Took
    requires pass { MayStep words.now.table.shared.table_id pass.old }
    requires head { IsHead words.now.table.shared.key h }
    requires legal { state_of expects ≡ MARKED }
    ensures goes { GoesOn words.now B.tells pass.old pass.new }
    ensures told { InTurn (λ q n v w. MarkTold q expects n (word_of UNLOCKED (version_of expects)) v w) (pages_under words.now.table.shared.key h)
        (found_by expects result) (view pass.old) (view pass.new) }
    ensures lost { (word : ℕ) → result ≡ Lost word → word ≢ expects }
{
    let at = state_place(words, h);
    let new = word_with(StateWord::UNLOCKED, expects);
    answer(
        compare_exchange::<U, B, u32, Brand>(words, pass, at, expects, new, h),
        expects,
    )
}

/// A mark of a group that is tried is one event of the machine with groups.
pub fn mark_group_is_its_event<U: Owner, B: Block>()
    ensures { MarkGroupIsItsEvent B.stored U.keeps U.tied B.tells }
{}

/// So is one that is to be taken away.
pub fn unmark_group_is_its_event<U: Owner, B: Block>()
    ensures { UnmarkGroupIsItsEvent B.stored U.keeps U.tied B.tells }
{}
