//! A hand of a store: it makes calls, one at a time.

ghost use Rattle.std.specs.Prelude.{[], ◌*◌, ◌≡◌, ◌≤◌, IfErr, IfOk, None};
ghost use Rattle.std.specs.Arc.{arc_value};
ghost use Rattle.vm_map.specs.declared.call.Call.TheVariants.{Del, Get, Put, Range, Swap as ForSwap, Window as ForWindow};
ghost use Rattle.vm_tree_model.specs.Fixed.{capacity};
ghost use Rattle.vm_tree_laws.specs.May.{MOST_LEAVES};
ghost use Rattle.vm_step.specs.Prelude.{view};
ghost use Rattle.vm_serve.specs.from_vm_calls.Keeps.{KeepsPass};
ghost use Rattle.vm_face.specs.{Calls.IsHandCall, Homes.IsHandOf, Homes.made_with};

use crate::home::Returned;
use std::alloc::Global;
use std::sync::Arc;
use vm_block::PageBlock;
use vm_handover::Giver;
use vm_map::call::Reply;
use vm_map::span::Span;
use vm_map::window::Bound;
use vm_owner::Ungrouped;
use vm_rule::words::Pass;
use vm_serve::exmap::Interface;
use vm_serve::kind::{OfSize, TreeOf, WordKeys};
use vm_serve::pool::Pool;
use vm_serve::tree_rule::TreeFault;
use vm_tree_range::range_within;
use vm_tree_retry::tree_read::{get_within, window_within};
use vm_tree_retry::within::{del_within, put_within, swap_within};

/// One thread's own things: a pass, an interface, a share of the pool, and the way back.
#[derive(Drop)]
pub struct Hand<U: Ungrouped, B: PageBlock<N> + Drop, const N: usize> {
    pub pool: Arc<Pool<U, B, N>, Global>,
    pub pass: Pass<U>,
    pub iface: Interface,
    pub way: Giver<Returned<U, B, N>>,
}

impl<U: Ungrouped, B: PageBlock<N> + Drop, const N: usize> Hand<U, B, N> {
    /// Ends the hand. The store that gave it takes it in when it looks next (`TreeStore::take_in`).
    pub fn leave(self)
        requires hand { IsHandOf (made_with self.way) (arc_value self.pool).words B.tells self.pass self.iface.frames }
    {
        let Hand {
            pool,
            pass,
            iface,
            way,
        } = self;
        way.give(Returned { pool, pass, iface });
    }
}

impl<S: OfSize<N>, B: PageBlock<N> + Drop, const N: usize> Hand<TreeOf<WordKeys<S, N>>, B, N> {
    /// The value at the key, in at most so many rounds; none where they were used up.
    pub fn get(&mut self, key: u64, rounds: u32) -> Result<Option<Reply>, TreeFault>
        requires hand { IsHandOf (made_with self.old.way) (arc_value self.old.pool).words B.tells self.old.pass self.old.iface.frames }
        ensures hand { IsHandOf (made_with self.new.way) (arc_value self.new.pool).words B.tells self.new.pass self.new.iface.frames }
        ensures pool { arc_value self.new.pool ≡ arc_value self.old.pool }
        ensures way { self.new.way ≡ self.old.way }
        ensures keeps { KeepsPass (view self.old.pass) (view self.new.pass) }
        ensures call { IsHandCall N (Get key) result (view self.old.pass) (view self.new.pass) }
    {
        get_within(&self.pool, &mut self.pass, &mut self.iface, &key, rounds)
    }

    /// Puts a value at the key, in at most so many rounds; none where they were used up.
    pub fn put(&mut self, key: u64, value: u64, rounds: u32) -> Result<Option<Reply>, TreeFault>
        requires hand { IsHandOf (made_with self.old.way) (arc_value self.old.pool).words B.tells self.old.pass self.old.iface.frames }
        ensures hand { IsHandOf (made_with self.new.way) (arc_value self.new.pool).words B.tells self.new.pass self.new.iface.frames }
        ensures pool { arc_value self.new.pool ≡ arc_value self.old.pool }
        ensures way { self.new.way ≡ self.old.way }
        ensures keeps { KeepsPass (view self.old.pass) (view self.new.pass) }
        ensures call { IsHandCall N (Put key value) result (view self.old.pass) (view self.new.pass) }
    {
        put_within(
            &self.pool,
            &mut self.pass,
            &mut self.iface,
            &key,
            value,
            rounds,
        )
    }

    /// Takes the pair of the key out, in at most so many rounds; none where they were used up.
    pub fn del(&mut self, key: u64, rounds: u32) -> Result<Option<Reply>, TreeFault>
        requires hand { IsHandOf (made_with self.old.way) (arc_value self.old.pool).words B.tells self.old.pass self.old.iface.frames }
        ensures hand { IsHandOf (made_with self.new.way) (arc_value self.new.pool).words B.tells self.new.pass self.new.iface.frames }
        ensures pool { arc_value self.new.pool ≡ arc_value self.old.pool }
        ensures way { self.new.way ≡ self.old.way }
        ensures keeps { KeepsPass (view self.old.pass) (view self.new.pass) }
        ensures call { IsHandCall N (Del key) result (view self.old.pass) (view self.new.pass) }
    {
        del_within(&self.pool, &mut self.pass, &mut self.iface, &key, rounds)
    }

    /// Puts a value at the key where its value is the one that is wanted, in at most so many rounds; none where they were used up.
    pub fn swap(
        &mut self,
        key: u64,
        want: u64,
        value: u64,
        rounds: u32,
    ) -> Result<Option<Reply>, TreeFault>
        requires hand { IsHandOf (made_with self.old.way) (arc_value self.old.pool).words B.tells self.old.pass self.old.iface.frames }
        ensures hand { IsHandOf (made_with self.new.way) (arc_value self.new.pool).words B.tells self.new.pass self.new.iface.frames }
        ensures pool { arc_value self.new.pool ≡ arc_value self.old.pool }
        ensures way { self.new.way ≡ self.old.way }
        ensures keeps { KeepsPass (view self.old.pass) (view self.new.pass) }
        ensures call { IsHandCall N (ForSwap key want value) result (view self.old.pass) (view self.new.pass) }
    {
        swap_within(
            &self.pool,
            &mut self.pass,
            &mut self.iface,
            &key,
            want,
            value,
            rounds,
        )
    }

    /// The first pairs from a key on, at most `most` of them, in at most so many rounds; none where they were used up.
    pub fn window(&mut self, start: u64, most: u32, rounds: u32) -> Result<Option<Reply>, TreeFault>
        requires hand { IsHandOf (made_with self.old.way) (arc_value self.old.pool).words B.tells self.old.pass self.old.iface.frames }
        requires most { 1 ≤ most }
        ensures hand { IsHandOf (made_with self.new.way) (arc_value self.new.pool).words B.tells self.new.pass self.new.iface.frames }
        ensures pool { arc_value self.new.pool ≡ arc_value self.old.pool }
        ensures way { self.new.way ≡ self.old.way }
        ensures keeps { KeepsPass (view self.old.pass) (view self.new.pass) }
        ensures call { IsHandCall N (ForWindow start most) result (view self.old.pass) (view self.new.pass) }
    {
        window_within(
            &self.pool,
            &mut self.pass,
            &mut self.iface,
            &start,
            most,
            rounds,
        )
    }

    /// All pairs from the key `low` on and below a bound, or how far sixteen leaves reach, in at most so many rounds; none where they were used up.
    /// `out` is empty, with room for the pairs of sixteen leaves; it holds the pairs in the reply, and is what it was where there is none.
    pub fn range(
        &mut self,
        low: u64,
        bound: Bound,
        out: &mut Span,
        rounds: u32,
    ) -> Result<Option<Reply>, TreeFault>
        requires hand { IsHandOf (made_with self.old.way) (arc_value self.old.pool).words B.tells self.old.pass self.old.iface.frames }
        requires empty { out.old.0 ≡ [] }
        requires room { capacity N * MOST_LEAVES ≤ out.old.1 }
        ensures hand { IsHandOf (made_with self.new.way) (arc_value self.new.pool).words B.tells self.new.pass self.new.iface.frames }
        ensures pool { arc_value self.new.pool ≡ arc_value self.old.pool }
        ensures way { self.new.way ≡ self.old.way }
        ensures keeps { KeepsPass (view self.old.pass) (view self.new.pass) }
        ensures call { IsHandCall N (Range low bound) result (view self.old.pass) (view self.new.pass) }
        ensures none { IfOk result (λ answer. answer ≡ None → out.new ≡ out.old) }
        ensures err { IfErr result (λ _. out.new ≡ out.old) }
    {
        range_within(
            &self.pool,
            &mut self.pass,
            &mut self.iface,
            &low,
            bound,
            out,
            rounds,
        )
    }
}
