// A page's block is taken out of its slot, and comes home. Each is two loads of the page's fault word: at the first the slot goes to the pass, at the
// second it is back.
ghost use Rattle.std.specs.Prelude.{◌<◌, ◌≡◌, ◌⊎◌, false, IsSome, None, Option, Some, true, ℕ};
ghost use Rattle.vm_event.specs.Prelude.{count_more};
ghost use Rattle.vm_event.specs.declared.event.Event.TheVariants.{Read, RFail, WFail, Write};
ghost use Rattle.vm_event.specs.declared.event.Seen.TheVariants as sights;
ghost use Rattle.vm_step.specs.from_vm_rule.Prelude.{core_shown, held_at, HomeTold, MayBring, out_at, OutTold, ReturnTold, seat_of, ShiftTold};
ghost use Rattle.vm_step.specs.from_vm_rule.Prelude.{SlotTold, Stored, Table, words_held};
ghost use Rattle.vm_step.specs.Prelude.{GoesOn, IsPassOf, MayStep, MayTakeOut, Origin, view, View};
ghost use Rattle.vm_step.specs.BlockMoves.{brought_to, IsCall, IsHome, ShowsBut, ShowsSame, taken_from};

use atomic_table::Play;
use std::marker::{Brand, PhantomData};
use vm_block::Block;
use vm_owner::Owner;
use vm_step::making::{fault_place, lift};
use vm_step::rule::{Pass, View, Words};

/// What a move of a block is given, for its proof alone: the table's shape, whether blocks tell their words, and the page.
pub(crate) trait Moved {
    ghost use Rattle.std.specs.Prelude.{Bool, ℕ};
    ghost use Rattle.vm_step.specs.Prelude.{TableShape};

    ghost shape: { TableShape };

    ghost tells: { Bool };

    ghost page: { ℕ };
}

impl Moved for Brand {
    ghost use Rattle.std.specs.Prelude.{false};
    ghost use Rattle.vm_step.specs.from_vm_rule.Begun.{no_shape};

    ghost shape = { no_shape };

    ghost tells = { false };

    ghost page = { 0 };
}

pub(crate) struct EmptySlot<U, B, M> {
    marker: PhantomData<(U, B, M)>,
}

impl<U: Owner, B: Block, M: Moved> Play<Option<B>, View<U::Said>> for EmptySlot<U, B, M> {
    ghost use Rattle.vm_step.specs.steps.Block.{empty_play};

    ghost then = { empty_play M.shape M.tells M.page };
}

pub(crate) struct TakeEmpty<U, B, M> {
    marker: PhantomData<(U, B, M)>,
}

impl<U: Owner, B: Block, M: Moved> Play<Option<B>, View<U::Said>> for TakeEmpty<U, B, M> {
    ghost use Rattle.vm_step.specs.steps.Block.{lift_play};

    ghost then = { lift_play M.shape M.tells M.page };
}

pub(crate) struct TakeSlot<U, B, M> {
    marker: PhantomData<(U, B, M)>,
}

impl<U: Owner, B: Block, M: Moved> Play<Option<B>, View<U::Said>> for TakeSlot<U, B, M> {
    ghost use Rattle.vm_step.specs.steps.Block.{slot_play};

    ghost then = { slot_play M.shape M.tells B.stored M.page };
}

pub(crate) struct ReturnSlot<U, B, M> {
    marker: PhantomData<(U, B, M)>,
}

impl<U: Owner, B: Block, M: Moved> Play<Option<B>, View<U::Said>> for ReturnSlot<U, B, M> {
    ghost use Rattle.vm_step.specs.steps.Block.{return_play};

    ghost then = { return_play M.shape M.tells B.stored M.page };
}

fn block_out_with<U: Owner, B: Block, M: Moved>(
    words: &Words<U, B>,
    pass: &mut Pass<U>,
    p: u32,
) -> B
    requires pass { MayStep words.now.table.shared.table_id pass.old }
    requires page { p < words.now.table.shared.key.pages }
    requires legal { MayTakeOut (view pass.old) p }
    requires given { (M.shape ≡ words.now.table.shared.key) × (M.tells ≡ B.tells) × (M.page ≡ p) }
    ensures goes { GoesOn words.now B.tells pass.old pass.new }
    ensures told { OutTold p (B.stored result) (view pass.old) (view pass.new) }
{
    let place = fault_place(words, p);
    let mut seat = lift::<View<U::Said>, Option<B>>(&mut pass.badge);
    words
        .table
        .shared
        .load::<TakeSlot<U, B, M>>(&mut seat, place);
    let block = words.table.shared.exchange(&mut seat, p as usize, None);
    words
        .table
        .shared
        .load::<EmptySlot<U, B, M>>(&mut seat, place);
    pass.badge = seat.into_badge();
    block.unwrap()
}

/// The page's block, for a pass that has the page locked exclusively or for write-back, and no block out.
pub fn block_out<U: Owner, B: Block>(words: &Words<U, B>, pass: &mut Pass<U>, p: u32) -> B
    requires pass { MayStep words.now.table.shared.table_id pass.old }
    requires page { p < words.now.table.shared.key.pages }
    requires legal { MayTakeOut (view pass.old) p }
    ensures goes { GoesOn words.now B.tells pass.old pass.new }
    ensures told { OutTold p (B.stored result) (view pass.old) (view pass.new) }
{
    block_out_with::<U, B, Brand>(words, pass, p)
}

fn block_home_with<U: Owner, B: Block, M: Moved>(
    words: &Words<U, B>,
    pass: &mut Pass<U>,
    p: u32,
    block: B,
)
    requires pass { MayStep words.now.table.shared.table_id pass.old }
    requires page { p < words.now.table.shared.key.pages }
    requires legal { (old : Stored) × MayBring (view pass.old) p old (B.stored block) }
    requires given { (M.shape ≡ words.now.table.shared.key) × (M.tells ≡ B.tells) × (M.page ≡ p) }
    ensures goes { GoesOn words.now B.tells pass.old pass.new }
    ensures told { (old : Stored) → MayBring (view pass.old) p old (B.stored block) → HomeTold p old (B.stored block) (view pass.old) (view pass.new) }
{
    let place = fault_place(words, p);
    let mut seat = lift::<View<U::Said>, Option<B>>(&mut pass.badge);
    words
        .table
        .shared
        .load::<TakeEmpty<U, B, M>>(&mut seat, place);
    let empty = words
        .table
        .shared
        .exchange(&mut seat, p as usize, Some(block));
    let None = empty else { unreachable!() };
    words
        .table
        .shared
        .load::<ReturnSlot<U, B, M>>(&mut seat, place);
    pass.badge = seat.into_badge();
}

/// Brings the page's block home, which the pass has out: as it was taken out, or after one call of its device.
pub fn block_home<U: Owner, B: Block>(words: &Words<U, B>, pass: &mut Pass<U>, p: u32, block: B)
    requires pass { MayStep words.now.table.shared.table_id pass.old }
    requires page { p < words.now.table.shared.key.pages }
    requires legal { (old : Stored) × MayBring (view pass.old) p old (B.stored block) }
    ensures goes { GoesOn words.now B.tells pass.old pass.new }
    ensures told { (old : Stored) → MayBring (view pass.old) p old (B.stored block) → HomeTold p old (B.stored block) (view pass.old) (view pass.new) }
{
    block_home_with::<U, B, Brand>(words, pass, p, block);
}

/// A block that is taken out is no event: neither the first step, which takes the slot with the block in it, nor the second, which brings
/// the slot home empty, changes the core.
pub fn block_out_is_no_event<U: Owner, B: Block>()
    ensures taken { (start : Origin) (s : Table (Option B) (View U.Said)) (id p found : ℕ) (b : B) (v w : View U.Said) →
        IsPassOf B.stored start U.keeps U.tied B.tells s id v → p < start.pages → MayTakeOut v p → IsHome s p b → SlotTold p (B.stored b) found v w →
        ShowsSame B.stored start s (taken_from s p id w) }
    ensures emptied { (start : Origin) (s : Table (Option B) (View U.Said)) (id p found : ℕ) (b : Stored) (v w : View U.Said) →
        IsPassOf B.stored start U.keeps U.tied B.tells s id v → v.out ≡ Some (out_at p true b) → ShiftTold p false b found v w →
        ShowsSame B.stored start s (brought_to s p None id w) }
{}

/// A block that comes home brings the call of its device. The first step, which takes the empty slot, changes nothing of the core. After the
/// second the core is as it was where nothing was written and nothing failed, which a pass that holds the page exclusively may call a read;
/// else it is the core after the write, or after a read or a write that failed, which sees the new count: one of the two is legal. Where
/// blocks do not tell their words, the words of the page's block alone may differ.
pub fn block_home_brings_its_event<U: Owner, B: Block>()
    ensures lifted { (start : Origin) (s : Table (Option B) (View U.Said)) (id p found : ℕ) (b : Stored) (v w : View U.Said) →
        IsPassOf B.stored start U.keeps U.tied B.tells s id v → v.out ≡ Some (out_at p false b) → ShiftTold p true b found v w →
        ShowsSame B.stored start s (taken_from s p id w) }
    ensures idle { (start : Origin) (s : Table (Option B) (View U.Said)) (id p found : ℕ) (old : Stored) (b : B) (v w : View U.Said) →
        IsPassOf B.stored start U.keeps U.tied B.tells s id v → v.out ≡ Some (out_at p true old) → ReturnTold p (B.stored b) found v w →
        (start.tells ≡ true → (B.stored b).words ≡ old.words) → (B.stored b).count ≡ old.count →
        ShowsBut B.stored start (brought_to s p (Some b) id w) (core_shown B.stored start s) p (B.stored b).words }
    ensures read { (start : Origin) (s : Table (Option B) (View U.Said)) (id p found : ℕ) (old : Stored) (b : B) (v w : View U.Said) →
        IsPassOf B.stored start U.keeps U.tied B.tells s id v → v.out ≡ Some (out_at p true old) → ReturnTold p (B.stored b) found v w →
        (seat_of v p).exclusive ≡ true → (start.tells ≡ true → (B.stored b).words ≡ old.words) → (B.stored b).count ≡ old.count →
        IsCall B.stored start s (brought_to s p (Some b) id w) p (B.stored b).words (Read id p) sights.Done }
    ensures wrote { (start : Origin) (s : Table (Option B) (View U.Said)) (id p found : ℕ) (old : Stored) (b : B) (v w : View U.Said) →
        IsPassOf B.stored start U.keeps U.tied B.tells s id v → v.out ≡ Some (out_at p true old) → ReturnTold p (B.stored b) found v w →
        IsSome (held_at v p).mapping → (start.tells ≡ true → (B.stored b).words ≡ words_held v p) → (B.stored b).count ≡ old.count →
        IsCall B.stored start s (brought_to s p (Some b) id w) p (B.stored b).words (Write id p) sights.Done }
    ensures read_failed { (start : Origin) (s : Table (Option B) (View U.Said)) (id p found : ℕ) (old : Stored) (b : B) (v w : View U.Said) →
        IsPassOf B.stored start U.keeps U.tied B.tells s id v → v.out ≡ Some (out_at p true old) → ReturnTold p (B.stored b) found v w →
        (seat_of v p).exclusive ≡ true → (start.tells ≡ true → (B.stored b).words ≡ old.words) → (B.stored b).count ≡ count_more old.count →
        IsCall B.stored start s (brought_to s p (Some b) id w) p (B.stored b).words (RFail id p) (sights.Word (count_more old.count)) }
    ensures write_failed { (start : Origin) (s : Table (Option B) (View U.Said)) (id p found : ℕ) (old : Stored) (b : B) (v w : View U.Said) →
        IsPassOf B.stored start U.keeps U.tied B.tells s id v → v.out ≡ Some (out_at p true old) → ReturnTold p (B.stored b) found v w →
        IsSome (held_at v p).mapping → (start.tells ≡ true → (B.stored b).words ≡ old.words) → (B.stored b).count ≡ count_more old.count →
        IsCall B.stored start s (brought_to s p (Some b) id w) p (B.stored b).words (WFail id p) (sights.Word (count_more old.count)) }
    ensures either { (start : Origin) (s : Table (Option B) (View U.Said)) (id p : ℕ) (old : Stored) (v : View U.Said) →
        IsPassOf B.stored start U.keeps U.tied B.tells s id v → v.out ≡ Some (out_at p true old) →
        ((seat_of v p).exclusive ≡ true) ⊎ IsSome (held_at v p).mapping }
{}
