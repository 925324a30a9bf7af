// The operations on a word of the table, by a pass: for each its seat is taken out, steps, and is put back. A kind of step is a call of one of them.
ghost use Rattle.std.specs.Prelude.{◌%◌, ◌+◌, ◌-◌, ◌<◌, ◌==◌, ◌^◌, ◌≡◌, bit_or};
ghost use prog.Atomic.{either};
ghost use Rattle.vm_rule.specs.Prelude.{Stands};
ghost use Rattle.vm_step.specs.Prelude.{AllowsStep, IsSamePass, MayStep, view};

use crate::seat::lift;
use atomic_table::Play;
use std::marker::{Brand, PhantomData};
use vm_block::Block;
use vm_owner::Owner;
use vm_rule::view::View;
use vm_rule::words::{Pass, Words};

/// What a step tells the call that makes it. A call of an operation picks it, for its proof alone.
pub trait StepTold<X> {
    ghost use Rattle.std.specs.Prelude.{ℕ};
    ghost use Rattle.vm_step.specs.Prelude.{View};

    // Of the number found (at a store, the number stored), the view before and the view afterwards.
    ghost told: { ℕ → View X → View X → Type 0 };
}

impl<X> StepTold<X> for Brand {
    ghost told = { λ n v w. Unit {0} };
}

/// The same, as the table has it: the pass has no slot out, and is fit to step again.
pub struct StepPlay<M> {
    marker: PhantomData<M>,
}

impl<S, X, M: StepTold<X>> Play<S, View<X>> for StepPlay<M> {
    ghost use Rattle.vm_step.specs.Operations.{step_play};

    ghost then = { step_play M.told };
}

/// Loads the word at this place. What the step is about is for the proof alone.
pub fn load<U: Owner, B: Block, A: Copy, M: StepTold<U::Said>>(
    words: &Words<U, B>,
    pass: &mut Pass<U>,
    at: usize,
    _about: A,
) -> u64
    requires pass { MayStep words.now.table.shared.table_id pass.old }
    requires at { at < words.now.table.shared.table_id.words }
    requires allows { AllowsStep
        (Stands B.stored U.keeps U.tied words.now.table.shared.key B.tells) words.now.table.shared.table_id.slots pass.old.badge.id
        (view pass.old) at (λ n. n) M.told }
    ensures pass { IsSamePass pass.old pass.new }
    ensures told { M.told result (view pass.old) (view pass.new) }
{
    let mut seat = lift::<View<U::Said>, Option<B>>(&mut pass.badge);
    let found = words.table.shared.load::<StepPlay<M>>(&mut seat, at);
    pass.badge = seat.into_badge();
    found
}

/// Stores a number there. What the step is about is for the proof alone.
pub fn store<U: Owner, B: Block, A: Copy, M: StepTold<U::Said>>(
    words: &Words<U, B>,
    pass: &mut Pass<U>,
    at: usize,
    new: u64,
    _about: A,
)
    requires pass { MayStep words.now.table.shared.table_id pass.old }
    requires at { at < words.now.table.shared.table_id.words }
    requires allows { AllowsStep
        (Stands B.stored U.keeps U.tied words.now.table.shared.key B.tells) words.now.table.shared.table_id.slots pass.old.badge.id
        (view pass.old) at (λ _. new) (λ _. M.told new) }
    ensures pass { IsSamePass pass.old pass.new }
    ensures told { M.told new (view pass.old) (view pass.new) }
{
    let mut seat = lift::<View<U::Said>, Option<B>>(&mut pass.badge);
    words.table.shared.store::<StepPlay<M>>(&mut seat, at, new);
    pass.badge = seat.into_badge();
}

/// Puts the new number there, where the word is the one expected, and answers the word before. What the step is about is for the proof alone.
pub fn compare_exchange<U: Owner, B: Block, A: Copy, M: StepTold<U::Said>>(
    words: &Words<U, B>,
    pass: &mut Pass<U>,
    at: usize,
    expects: u64,
    new: u64,
    _about: A,
) -> u64
    requires pass { MayStep words.now.table.shared.table_id pass.old }
    requires at { at < words.now.table.shared.table_id.words }
    requires allows { AllowsStep
        (Stands B.stored U.keeps U.tied words.now.table.shared.key B.tells) words.now.table.shared.table_id.slots pass.old.badge.id
        (view pass.old) at (λ n. either (n == expects) new n) M.told }
    ensures pass { IsSamePass pass.old pass.new }
    ensures told { M.told result (view pass.old) (view pass.new) }
{
    let mut seat = lift::<View<U::Said>, Option<B>>(&mut pass.badge);
    let found = words
        .table
        .shared
        .compare_exchange::<StepPlay<M>>(&mut seat, at, expects, new);
    pass.badge = seat.into_badge();
    found
}

/// Subtracts from the word, and answers it as it was. What the step is about is for the proof alone.
pub fn fetch_sub<U: Owner, B: Block, A: Copy, M: StepTold<U::Said>>(
    words: &Words<U, B>,
    pass: &mut Pass<U>,
    at: usize,
    k: u64,
    _about: A,
) -> u64
    requires pass { MayStep words.now.table.shared.table_id pass.old }
    requires at { at < words.now.table.shared.table_id.words }
    requires allows { AllowsStep
        (Stands B.stored U.keeps U.tied words.now.table.shared.key B.tells) words.now.table.shared.table_id.slots pass.old.badge.id
        (view pass.old) at (λ n. (n + (2 ^ 64 - k)) % 2 ^ 64) M.told }
    ensures pass { IsSamePass pass.old pass.new }
    ensures told { M.told result (view pass.old) (view pass.new) }
{
    let mut seat = lift::<View<U::Said>, Option<B>>(&mut pass.badge);
    let found = words
        .table
        .shared
        .fetch_sub::<StepPlay<M>>(&mut seat, at, k);
    pass.badge = seat.into_badge();
    found
}

/// Sets bits of the word, and answers it as it was. What the step is about is for the proof alone.
pub fn fetch_or<U: Owner, B: Block, A: Copy, M: StepTold<U::Said>>(
    words: &Words<U, B>,
    pass: &mut Pass<U>,
    at: usize,
    k: u64,
    _about: A,
) -> u64
    requires pass { MayStep words.now.table.shared.table_id pass.old }
    requires at { at < words.now.table.shared.table_id.words }
    requires allows { AllowsStep
        (Stands B.stored U.keeps U.tied words.now.table.shared.key B.tells) words.now.table.shared.table_id.slots pass.old.badge.id
        (view pass.old) at (λ n. bit_or n k) M.told }
    ensures pass { IsSamePass pass.old pass.new }
    ensures told { M.told result (view pass.old) (view pass.new) }
{
    let mut seat = lift::<View<U::Said>, Option<B>>(&mut pass.badge);
    let found = words.table.shared.fetch_or::<StepPlay<M>>(&mut seat, at, k);
    pass.badge = seat.into_badge();
    found
}
