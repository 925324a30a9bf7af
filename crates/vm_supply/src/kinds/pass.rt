// Passes are split and joined; and passes that meet tell each other what they have seen.
ghost use Rattle.std.specs.Prelude.{◌≡◌};
ghost use Rattle.vm_step.specs.from_vm_rule.Prelude.{CaughtUp, giver, hearer, HoldsNoPage, JoinTold, newcomer, OnlyKnows, StartsWith, TakesOver};
ghost use Rattle.vm_step.specs.Prelude.{GoesOn, IsSamePass, KnowsAll, MayStep, view};
ghost use Rattle.vm_step.specs.steps.Pass.{FollowIsItsEvent, HearingIsNoEvent, JoinIsNoEvent, SplitIsNoEvent};

use crate::operation::take_in;
use atomic_table::{Join, Split};
use std::marker::Brand;
use vm_block::Block;
use vm_owner::Owner;
use vm_step::making::{lift, next_place};
use vm_step::rule::{Pass, View, Words};

/// A pass is split, and a part goes over.
pub(crate) struct CutPart;

impl<X> Split<View<X>> for CutPart {
    ghost use Rattle.std.specs.Prelude.{true};
    ghost use Rattle.vm_step.specs.from_vm_rule.Prelude.{giver, newcomer};

    ghost left = { giver true };

    ghost right = { newcomer true };
}

/// A pass is split, and no part goes over.
pub(crate) struct CutNone;

impl<X> Split<View<X>> for CutNone {
    ghost use Rattle.std.specs.Prelude.{false};
    ghost use Rattle.vm_step.specs.from_vm_rule.Prelude.{giver, newcomer};

    ghost left = { giver false };

    ghost right = { newcomer false };
}

/// A pass takes in another.
pub(crate) struct Glue;

impl<X> Join<View<X>> for Glue {
    ghost use Rattle.vm_step.specs.from_vm_rule.Prelude.{joined, spent as gone};

    ghost both = { joined };

    ghost spent = { gone };
}

/// A pass takes in another that only knows what it has seen.
pub(crate) struct Hear;

impl<X> Join<View<X>> for Hear {
    ghost use Rattle.vm_step.specs.from_vm_rule.Prelude.{hearer as told, spent as gone};

    ghost both = { told };

    ghost spent = { gone };
}

/// A new pass, which has the first fresh part as its number, or, without `part`, none. It knows what the pass had seen, and holds nothing.
pub fn split_pass<U: Owner, B: Block>(
    words: &Words<U, B>,
    pass: &mut Pass<U>,
    part: bool,
) -> Pass<U>
    requires pass { MayStep words.now.table.shared.table_id pass.old }
    ensures pass { IsSamePass pass.old pass.new }
    ensures table { result.badge.table_id ≡ words.now.table.shared.table_id }
    ensures kept { view pass.new ≡ giver part (view pass.old) }
    ensures given { view result ≡ newcomer part (view pass.old) }
{
    let mut seat = lift::<View<U::Said>, Option<B>>(&mut pass.badge);
    let other = if part {
        words.table.shared.split_seat::<CutPart>(&mut seat)
    } else {
        words.table.shared.split_seat::<CutNone>(&mut seat)
    };
    pass.badge = seat.into_badge();
    Pass {
        badge: other.into_badge(),
    }
}

/// Takes in the parts, frames, page numbers and notes of another pass, which holds no page, and all that it had seen; and brings the pass up to date.
pub fn join_pass<U: Owner, B: Block>(words: &Words<U, B>, pass: &mut Pass<U>, other: Pass<U>)
    requires pass { MayStep words.now.table.shared.table_id pass.old }
    requires other { other.badge.table_id ≡ words.now.table.shared.table_id }
    requires nothing { HoldsNoPage (view other) }
    ensures goes { GoesOn words.now B.tells pass.old pass.new }
    ensures told { JoinTold (view pass.old) (view other) (view pass.new) }
    ensures knows { KnowsAll B.tells U.keeps (view pass.new) }
{
    let at = next_place(words);
    take_in::<U, B, Glue, Brand>(words, pass, other, at);
}

/// Is told what another pass had seen, which has no part and no note and goes; and is brought up to date.
pub fn hear_pass<U: Owner, B: Block>(words: &Words<U, B>, pass: &mut Pass<U>, other: Pass<U>)
    requires pass { MayStep words.now.table.shared.table_id pass.old }
    requires other { other.badge.table_id ≡ words.now.table.shared.table_id }
    requires only { OnlyKnows (view other) }
    ensures goes { GoesOn words.now B.tells pass.old pass.new }
    ensures told { CaughtUp (hearer (view pass.old) (view other)) (view pass.new) }
{
    let at = next_place(words);
    take_in::<U, B, Hear, Brand>(words, pass, other, at);
}

/// Takes over what another pass had seen, which has no part and no note, goes on from what this pass had seen, and goes: the two lists are just
/// those of the other then.
pub fn follow_pass<U: Owner, B: Block>(words: &Words<U, B>, pass: &mut Pass<U>, other: Pass<U>)
    requires pass { MayStep words.now.table.shared.table_id pass.old }
    requires other { other.badge.table_id ≡ words.now.table.shared.table_id }
    requires only { OnlyKnows (view other) }
    requires releases { StartsWith (view other).releases (view pass.old).releases }
    requires seen { StartsWith (view other).seen (view pass.old).seen }
    ensures goes { GoesOn words.now B.tells pass.old pass.new }
    ensures told { TakesOver (hearer (view pass.old) (view other)) (view pass.new) }
{
    let at = next_place(words);
    take_in::<U, B, Hear, Brand>(words, pass, other, at);
}

/// A split changes no word and no block: there is one actor more, which has nothing.
pub fn split_is_no_event<U: Owner, B: Block>()
    ensures { SplitIsNoEvent B.stored U.keeps U.tied B.tells }
{}

/// A join changes no word and no block: the frames and the page numbers of the pass that goes are those of the one that takes it in, and its reads
/// are closed.
pub fn join_is_no_event<U: Owner, B: Block>()
    ensures { JoinIsNoEvent B.stored U.keeps U.tied B.tells }
{}

/// A hearing changes no word and no block: the pass that goes has no frames and no page numbers, and its reads are closed.
pub fn hearing_is_no_event<U: Owner, B: Block>()
    ensures { HearingIsNoEvent B.stored U.keeps U.tied B.tells }
{}

/// The load by which a pass takes over what it was told sees the next word.
pub fn follow_is_its_event<U: Owner, B: Block>()
    ensures { FollowIsItsEvent B.stored U.keeps U.tied B.tells }
{}
