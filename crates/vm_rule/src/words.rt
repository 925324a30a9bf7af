// The shared table, and a caller's token for it.
ghost use Rattle.std.specs.Prelude.{[], ◌≡◌, ◌≤◌, IfOk, length, true};
ghost use denote.Struct.Props.{props};
ghost use Rattle.vm_rule.specs.Prelude.{Sound, view_of, width_of};
ghost use Rattle.vm_rule.specs.Props.{AreApart-prop, AreCounted-prop, AreNext-prop, numbered-prop};

use crate::view::{TableShape, View};
use atomic_table::{Badge, Closed, Table, TableRule};
use std::alloc::{AllocError, Global};
use std::marker::PhantomData;
use std::snapshot::Snapshot;
use vm_block::Block;
use vm_owner::Owner;

/// The rule of the table, for an owner and a kind of block.
pub struct Law<U, B> {
    marker: PhantomData<(U, B)>,
}

impl<U: Owner, B: Block> TableRule<Option<B>, View<U::Said>, TableShape> for Law<U, B> {
    ghost use Rattle.vm_rule.specs.Prelude.{Stands, unborn};

    ghost holds = { λ shape s. Stands B.stored U.keeps U.tied shape B.tells s };

    ghost first = { unborn };
}

/// How many words each page of a table has: a number that the owner takes. It stands by itself, since a struct that holds a table over the owner's
/// law can't name what else the owner says.
pub struct PageSize<U: Owner> {
    pub words: usize,
    pub(crate) marker: PhantomData<U>,
    pub ghost takes: { U.takes_size words ≡ true },
}

/// Which groups of pages a table has, each with its first page and its size: those that the owner takes. It stands by itself, as `PageSize` does.
#[derive(Drop)]
pub struct PageGroups<U: Owner> {
    pub list: Vec<(u32, u32)>,
    marker: PhantomData<U>,
    pub ghost takes: { U.takes_groups list.items ≡ true },
}

impl<U: Owner> PageGroups<U> {
    /// These groups.
    pub(crate) fn of(alloc: Global, groups: &[(u32, u32)]) -> Result<PageGroups<U>, AllocError>
        requires { U.takes_groups groups.now ≡ true }
        ensures { IfOk result (λ made. made.list.items ≡ groups.now) }
    {
        Ok(PageGroups {
            list: Vec::from_slice(alloc, groups)?,
            marker: PhantomData,
        })
    }
}

/// The shared words of a table, and its slots with the blocks: all passes step on them through a `&`.
pub struct Words<U: Owner, B: Block> {
    pub table: Table<Option<B>, View<U::Said>, TableShape, Law<U, B>, Global>,
    pub size: PageSize<U>,
    pub groups: PageGroups<U>,
    pub pages: usize,
    pub frames: usize,
    pub ghost shape: { (pages ≡ table.shared.key.pages) × (frames ≡ table.shared.key.frames) × (pages ≤ 65536) × (frames ≤ 65536) },
    pub ghost sized: { (size.words ≡ table.shared.key.size) × (1 ≤ size.words) × (size.words ≤ 512) },
    pub ghost wide: { (table.shared.table_id.words ≡ width_of table.shared.key.size table.shared.key.pages table.shared.key.frames) ×
        (table.shared.table_id.slots ≡ table.shared.key.pages) },
    pub ghost grouped: { groups.list.items ≡ table.shared.key.began.origin.groups },
}

/// What a pass knew at some time, for proofs. It has no bytes.
pub type Knew<X> = Snapshot<Badge<View<X>>>;

/// A caller's token: what it knows and holds of one table. It has no bytes.
pub struct Pass<U: Owner> {
    pub badge: Badge<View<U::Said>>,
    pub ghost one: { length badge.views ≡ 1 },
    pub ghost live: { (view_of badge.views).live ≡ true },
    pub ghost settled: { ((view_of badge.views).told_releases ≡ []) × ((view_of badge.views).told ≡ []) },
    pub ghost sound: { Sound (view_of badge.views) } by { Prim.hlevel (props, AreApart-prop, AreNext-prop, AreCounted-prop, numbered-prop) },
}

impl<U: Owner, B: Block> Words<U, B> {
    ghost use Rattle.std.specs.Mem.Slots.{IsFull, slots_items, slots_len};
    ghost use Rattle.atomic_table.specs.Table.{Final, Seen};
    ghost use Rattle.vm_rule.specs.Prelude.{Stands};

    /// Ends the table: its words and its slots, as the last state that met the rule has them, in which this pass has its view.
    pub fn close_with(self, pass: Pass<U>) -> Closed<Option<B>, Global>
        requires { pass.badge.table_id ≡ self.table.shared.table_id }
        ensures counts { (slots_len result.words ≡ width_of self.size.words self.pages self.frames) × (slots_len result.slots ≡ self.pages) }
        ensures values { IsFull result.words × IsFull result.slots ×
            Final (Seen (Stands B.stored U.keeps U.tied self.table.shared.key B.tells) pass.badge.id (view_of pass.badge.views))
            (slots_items result.words) (slots_items result.slots) }
    {
        let Words {
            table,
            size: PageSize {
                words: _,
                marker: _,
            },
            groups,
            pages: _,
            frames: _,
        } = self;
        drop(groups);
        table.close_with(pass.into_badge().into_seat())
    }
}

impl<U: Owner> Pass<U> {
    /// What the pass knows now, for proofs.
    pub fn knew(&self) -> Knew<U::Said>
        ensures { result.value ≡ self.now.badge }
    {
        Snapshot::of(&self.badge)
    }

    /// The token without what is known of it.
    pub fn into_badge(self) -> Badge<View<U::Said>>
        ensures { result ≡ self.badge }
    {
        let Pass { badge } = self;
        badge
    }
}

// A table that is let go drops the blocks that are at home.
impl<U: Owner, B: Block + Drop> Drop for Words<U, B> {
    fn drop(self) {
        let Words {
            table,
            size: PageSize {
                words: _,
                marker: _,
            },
            groups,
            pages: _,
            frames: _,
        } = self;
        drop(groups);
        drop(table);
    }
}

// What a pass holds that is let go stays held.
impl<U: Owner> Drop for Pass<U> {
    fn drop(self) {
        let Pass { badge } = self;
        drop(badge);
    }
}
