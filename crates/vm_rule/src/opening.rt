//! What a table is made of: words that are pushed, the slots, and the first pass with its first step.

ghost use Rattle.std.specs.Prelude.{[], ◌++◌, ◌<◌, ◌≡◌, ◌≤◌, IfOk, length, map, Some, true};
ghost use Rattle.vm_rule.specs.Prelude.{counts_of, listed, opening, Sound, Stands, unborn, view_of, width_of};
ghost use Rattle.vm_rule.specs.Begun.{begun};

use crate::view::{TableShape, View};
use crate::words::{Law, PageGroups, PageSize, Pass, Words};
use atomic_table::{Play, Seat, Table};
use std::alloc::{AllocError, Global};
use std::marker::PhantomData;
use vm_block::Block;
use vm_event::Memory;
use vm_owner::Owner;

/// The same word, `count` times.
pub(crate) fn push_same(words: &mut Vec<u64>, count: usize, word: u64) -> Result<(), AllocError>
    ensures { IfOk result (λ _. words.new.items ≡ words.old.items ++ listed count (λ _. word)) }
{
    for i in 0..count {
        words.push(word)?;
    }
    Ok(())
}

/// What each block has counted of faults.
pub(crate) fn push_faults<B: Block>(words: &mut Vec<u64>, blocks: &[B]) -> Result<(), AllocError>
    ensures { IfOk result (λ _. words.new.items ≡ words.old.items ++ counts_of (map B.stored blocks.now)) }
{
    for block in blocks {
        words.push(block.faults())?;
    }
    Ok(())
}

/// The slots with the blocks at home.
pub(crate) fn slots_of<B: Drop>(alloc: Global, blocks: Vec<B>) -> Result<Vec<Option<B>>, AllocError>
    ensures { IfOk result (λ slots. slots.items ≡ map Some blocks.items) }
{
    let mut slots = Vec::with_capacity(alloc, blocks.len())?;
    for block in blocks {
        slots.push(Some(block))?;
    }
    Ok(slots)
}

/// The table of these words and slots, which meet the rule, and its first pass after its first step. Where there is no memory the slots are
/// dropped.
pub(crate) fn opened<U: Owner, B: Block + Drop>(
    alloc: Global,
    words: &[u64],
    slots: Vec<Option<B>>,
    shape: &TableShape,
    groups: PageGroups<U>,
) -> Result<(Words<U, B>, Pass<U>), Memory>
    requires stands { Stands B.stored U.keeps U.tied shape.now B.tells (opening words.now slots.items (unborn shape.now)) }
    requires pages { (1 ≤ shape.now.pages) × (shape.now.pages ≤ 65536) }
    requires frames { shape.now.frames ≤ 65536 }
    requires size { (1 ≤ shape.now.size) × (shape.now.size ≤ 512) }
    requires takes { U.takes_size shape.now.size ≡ true }
    requires grouped { groups.list.items ≡ shape.now.began.origin.groups }
    requires wide { (length words.now ≡ width_of shape.now.size shape.now.pages shape.now.frames) × (length slots.items ≡ shape.now.pages) }
    ensures key { IfOk result (λ made. made.0.table.shared.key ≡ shape.now) }
    ensures pass { IfOk result (λ made. made.1.badge.table_id ≡ made.0.table.shared.table_id) }
    ensures view { IfOk result (λ made. view_of made.1.badge.views ≡ begun (unborn shape.now)) }
{
    let Ok((table, mut seat)) = Table::new(alloc, words, slots, shape) else {
        return Err(Memory);
    };
    first_step(&table, &mut seat);
    let words = Words {
        table,
        size: PageSize {
            words: shape.size as usize,
            marker: PhantomData,
        },
        groups,
        pages: shape.pages as usize,
        frames: shape.frames as usize,
    };
    let pass = Pass {
        badge: seat.into_badge(),
    };
    Ok((words, pass))
}

/// What the load of the first state word tells.
pub(crate) struct Begin<U> {
    marker: PhantomData<U>,
}

impl<S, U: Owner> Play<S, View<U::Said>> for Begin<U> {
    ghost use Rattle.vm_rule.specs.Begun.{begin_play};

    ghost then = { begin_play };
}

/// The first step of the first pass.
pub(crate) fn first_step<U: Owner, B: Block>(
    table: &Table<Option<B>, View<U::Said>, TableShape, Law<U, B>, Global>,
    seat: &mut Seat<Option<B>, View<U::Said>>,
)
    requires table { (seat.old.table_id ≡ table.now.shared.table_id) × (0 < table.now.shared.table_id.words) × (1 ≤ table.now.shared.key.pages) }
    requires seat { seat.old.me ≡ (unborn table.now.shared.key, []) }
    ensures table { seat.new.table_id ≡ seat.old.table_id }
    ensures seat { seat.new.me ≡ (begun (unborn table.now.shared.key), []) }
    ensures sound { Sound seat.new.me.0 }
{
    table.shared.load::<Begin<U>>(seat, 0);
}
