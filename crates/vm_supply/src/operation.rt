// The operations on the table that only kinds of this crate make: the hand is added to, and a pass takes in another. As at those of `vm_step`,
// the pass's seat is taken out, steps, and is put back.
ghost use Rattle.std.specs.Prelude.{◌%◌, ◌+◌, ◌<◌, ◌^◌, ◌≡◌};
ghost use Rattle.atomic_table.specs.Table.{Joins};
ghost use Rattle.vm_step.specs.from_vm_rule.Prelude.{Stands};
ghost use Rattle.vm_step.specs.Prelude.{AllowsStep, IsSamePass, MayStep, view};

use atomic_table::Join;
use vm_block::Block;
use vm_owner::Owner;
use vm_step::making::{StepPlay, StepTold, lift};
use vm_step::rule::{Pass, View, Words};

/// Adds to the word, and answers it as it was. What the step is about is for the proof alone.
pub(crate) fn fetch_add<U: Owner, B: Block, A: Copy, M: StepTold<U::Said>>(
    words: &Words<U, B>,
    pass: &mut Pass<U>,
    at: usize,
    k: u64,
    _about: A,
) -> u64
    requires pass { MayStep words.now.table.shared.table_id pass.old }
    requires at { at < words.now.table.shared.table_id.words }
    requires allows { AllowsStep
        (Stands B.stored U.keeps U.tied words.now.table.shared.key B.tells) words.now.table.shared.table_id.slots pass.old.badge.id
        (view pass.old) at (λ n. (n + k) % 2 ^ 64) M.told }
    ensures pass { IsSamePass pass.old pass.new }
    ensures told { M.told result (view pass.old) (view pass.new) }
{
    let mut seat = lift::<View<U::Said>, Option<B>>(&mut pass.badge);
    let found = words
        .table
        .shared
        .fetch_add::<StepPlay<M>>(&mut seat, at, k);
    pass.badge = seat.into_badge();
    found
}

/// Another pass is taken in, which goes; then the word at this place is loaded.
pub(crate) fn take_in<U: Owner, B: Block, J: Join<View<U::Said>>, M: StepTold<U::Said>>(
    words: &Words<U, B>,
    pass: &mut Pass<U>,
    other: Pass<U>,
    at: usize,
) -> u64
    requires pass { MayStep words.now.table.shared.table_id pass.old }
    requires other { other.badge.table_id ≡ words.now.table.shared.table_id }
    requires at { at < words.now.table.shared.table_id.words }
    requires joins { Joins (Stands B.stored U.keeps U.tied words.now.table.shared.key B.tells) pass.old.badge.id (view pass.old) other.badge.id
        (view other) (J.both (view pass.old) (view other)) J.spent }
    requires allows { AllowsStep
        (Stands B.stored U.keeps U.tied words.now.table.shared.key B.tells) words.now.table.shared.table_id.slots pass.old.badge.id
        (J.both (view pass.old) (view other)) at (λ n. n) M.told }
    ensures pass { IsSamePass pass.old pass.new }
    ensures told { M.told result (J.both (view pass.old) (view other)) (view pass.new) }
{
    let mut seat = lift::<View<U::Said>, Option<B>>(&mut pass.badge);
    let gone = other.into_badge().into_seat::<Option<B>>();
    words.table.shared.join_seat::<J>(&mut seat, gone);
    let found = words.table.shared.load::<StepPlay<M>>(&mut seat, at);
    pass.badge = seat.into_badge();
    found
}
