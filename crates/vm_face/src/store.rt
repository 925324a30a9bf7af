//! A store: a pool of pages, the pass that knows what the hands did that are back, and how many hands are out.

ghost use Rattle.std.specs.Prelude.{[], ◌++◌, ◌+◌, ◌<◌, ◌∷◌, ◌≡◌, ◌≤◌, IfErr, IfOk, length, List, map, true, ℕ};
ghost use Rattle.std.specs.Arc.{arc_value};
ghost use Rattle.std.specs.Vec.{vec_capacity};
ghost use Rattle.vm_event.specs.Prelude.{MAX_VERSION};
ghost use Rattle.vm_rule.specs.Prelude.{block_words};
ghost use Rattle.vm_step.specs.Prelude.{view};
ghost use Rattle.vm_serve.specs.Served.{MayBeServed};
ghost use Rattle.vm_serve.specs.from_vm_evict.Flushes.{IsFlushed};
ghost use Rattle.vm_face.specs.Closed.{IsClosedOn, IsStoreOpened, IsNotClosed};
ghost use Rattle.vm_face.specs.Given.{IsBackIn, IsHandGiven, IsNoHand};
ghost use Rattle.vm_face.specs.Homes.{HasTakenIn, IsHandOf, made_at, made_with, hand_at};
ghost use Rattle.vm_face.specs.Passes.{has_room, IsHandOn, IsStore, IsStoreOn};

use crate::hand::Hand;
use crate::home::Returned;
use std::alloc::Global;
use std::sync::Arc;
use vm_block::PageBlock;
use vm_event::Memory;
use vm_evict::{Flushed, flush};
use vm_handover::{Taker, handover};
use vm_owner::{Owner, Ungrouped};
use vm_rule::words::Pass;
use vm_serve::exmap::Interface;
use vm_serve::kind::{OfSize, TreeOf, WordKeys};
use vm_serve::pool::{Closed, Ended, Pool, Saved, Shape, flush_and_close};

/// The most hands of a store that may be out.
pub const MOST_HANDS: usize = 64;

/// How a store is held: its hands share the pool.
#[derive(Drop)]
pub struct TreeStore<U: Ungrouped, B: PageBlock<N> + Drop, const N: usize> {
    pub pool: Arc<Pool<U, B, N>, Global>,
    pub pass: Pass<U>,
    /// Where the hands that are out come back. There is room for as many as may be.
    pub homes: Vec<Taker<Returned<U, B, N>>>,
    /// Hands that there ever were.
    pub ever: u32,
}

/// Why there is no hand more.
#[derive(Clone, Copy, Drop)]
pub enum NoHand {
    /// As many are out, or were ever, as may be; or each would have fewer than eight frames.
    Crowded,
    Memory,
}

/// What a store comes to.
#[derive(Drop)]
pub struct Summary<U: Owner, B> {
    /// What the last flush did.
    pub report: Flushed,
    /// The blocks, in the order of their pages.
    pub blocks: Vec<B>,
    /// That the pool was closed, with the one history that the hands had.
    pub ended: Ended<U>,
}

/// Why a store was not closed.
#[derive(Drop)]
pub enum Closing<T> {
    /// Hands are out: the store comes back as it was.
    Hands(T),
    /// No hand is out, but somebody has a share of the pool: the store comes back as it was.
    Shared(T),
    /// There was no memory for the list of blocks: the store is gone, with its pages written.
    Memory,
}

/// Opens a store on blocks that hold a tree, for a pool of this shape whose free pages below the next one may be used anew. Where there is no
/// memory the blocks are dropped.
pub fn open_on<S: OfSize<N>, B: PageBlock<N> + Drop, const N: usize>(
    alloc: Global,
    shape: Shape,
    blocks: Vec<B>,
    free: &[u32],
) -> Result<TreeStore<TreeOf<WordKeys<S, N>>, B, N>, Memory>
    requires tree { (pages : List (List ℕ)) × MayBeServed N B.tells pages (map B.stored blocks.items) shape.next free.now }
    requires pages { (shape.pages ≡ length blocks.items) × (shape.pages ≤ 65536) }
    requires version { shape.first_version ≤ MAX_VERSION }
    requires frames { (64 ≤ shape.frames) × (shape.frames ≤ 65536) }
    ensures store { IfOk result (λ store. IsStore (arc_value store.pool).words B.tells store.pass (map made_at store.homes.items) store.ever) }
    ensures room { IfOk result (λ store. 64 ≤ vec_capacity store.homes) }
    ensures opened { IfOk result (λ store. (pages : List (List ℕ)) → MayBeServed N B.tells pages (map B.stored blocks.items) shape.next free.now
        → IsStoreOpened B.tells pages (view store.pass)) }
    ensures none { IfOk result (λ store. (store.homes.items ≡ []) × (store.ever ≡ 0) × ((view store.pass).seen ≡ [])) }
{
    let (pool, pass) = Pool::start(alloc, shape, blocks, free, &[])?;
    let Ok(homes) = Vec::with_capacity(alloc, MOST_HANDS) else {
        return Err(Memory);
    };
    match Arc::new(alloc, pool) {
        Ok(pool) => Ok(TreeStore {
            pool,
            pass,
            homes,
            ever: 0,
        }),
        Err(_) => Err(Memory),
    }
}

impl<U: Ungrouped, B: PageBlock<N> + Drop, const N: usize> TreeStore<U, B, N> {
    /// How many pages the store has.
    pub fn pages(&self) -> usize
        ensures { result ≡ (arc_value self.now.pool).words.table.shared.key.pages }
    {
        self.pool.words.pages
    }

    /// How many frames the store has.
    pub fn frames(&self) -> usize
        ensures { result ≡ (arc_value self.now.pool).words.table.shared.key.frames }
    {
        self.pool.words.frames
    }

    /// How many hands are out: those that came back are, until they were taken in.
    pub fn out(&self) -> usize
        ensures { result ≡ length self.now.homes.items }
    {
        self.homes.len()
    }

    /// Whether a hand more may be out: fewer than 64 are, each has eight frames, and there were fewer than 2^32 - 1 ever.
    pub fn has_room(&self) -> bool
        ensures { result ≡ has_room (arc_value self.now.pool).words.table.shared.key.frames (length self.now.homes.items) self.now.ever }
    {
        self.homes.len() < MOST_HANDS
            && self.ever < u32::MAX
            && 8 * (self.homes.len() + 1) <= self.pool.words.frames
    }

    /// A hand for one thread, with its own way back. Where there is none, nothing has changed.
    pub fn hand(&mut self, alloc: Global) -> Result<Hand<U, B, N>, NoHand>
        requires store { IsStore (arc_value self.old.pool).words B.tells self.old.pass (map made_at self.old.homes.items) self.old.ever }
        requires room { 64 ≤ vec_capacity self.old.homes }
        ensures store { IsStore (arc_value self.new.pool).words B.tells self.new.pass (map made_at self.new.homes.items) self.new.ever }
        ensures room { 64 ≤ vec_capacity self.new.homes }
        ensures pool { arc_value self.new.pool ≡ arc_value self.old.pool }
        ensures hand { IfOk result (λ hand. IsHandOf (made_with hand.way) (arc_value hand.pool).words B.tells hand.pass hand.iface.frames) }
        ensures same { IfOk result (λ hand. arc_value hand.pool ≡ arc_value self.old.pool) }
        ensures given { IfOk result (λ hand. IsHandGiven (view self.old.pass) (view hand.pass) (view self.new.pass)) }
        ensures home { IfOk result (λ hand. map made_at self.new.homes.items ≡ map made_at self.old.homes.items ++ (made_with hand.way) ∷ []) }
        ensures ever { IfOk result (λ _. self.new.ever ≡ self.old.ever + 1) }
        ensures may { IfOk result (λ _. has_room (arc_value self.old.pool).words.table.shared.key.frames (length self.old.homes.items) self.old.ever ≡ true) }
        ensures none { IfErr result (λ why. (self.new ≡ self.old)
            × IsNoHand (arc_value self.old.pool).words.table.shared.key.frames (length self.old.homes.items) self.old.ever why) }
    {
        if !self.has_room() {
            return Err(NoHand::Crowded);
        }
        let Ok(pool) = Arc::try_clone(&self.pool) else {
            return Err(NoHand::Memory);
        };
        let Ok((way, home)) = handover(alloc, &self.pass.knew()) else {
            return Err(NoHand::Memory);
        };
        let iface = Interface::new(
            self.homes.len() as u32,
            share_of_one(self.pool.words.frames),
        );
        let pass = self.pool.split_one(&mut self.pass);
        self.homes.push_reserved(home);
        self.ever += 1;
        Ok(Hand {
            pool,
            pass,
            iface,
            way,
        })
    }

    /// Writes each dirty page that no hand has locked to its block. Hands may go on meanwhile.
    pub fn flush(&mut self) -> Flushed
        requires store { IsStore (arc_value self.old.pool).words B.tells self.old.pass (map made_at self.old.homes.items) self.old.ever }
        ensures store { IsStore (arc_value self.new.pool).words B.tells self.new.pass (map made_at self.new.homes.items) self.new.ever }
        ensures rest { (arc_value self.new.pool ≡ arc_value self.old.pool) × (self.new.homes ≡ self.old.homes) × (self.new.ever ≡ self.old.ever) }
        ensures flushed { IsFlushed result (view self.old.pass) (view self.new.pass) }
    {
        flush::<U, B, N>(&self.pool.words, &mut self.pass)
    }

    /// Takes in the hands that came back: the store knows what they did.
    pub fn take_in(&mut self)
        requires store { IsStore (arc_value self.old.pool).words B.tells self.old.pass (map made_at self.old.homes.items) self.old.ever }
        ensures store { IsStore (arc_value self.new.pool).words B.tells self.new.pass (map made_at self.new.homes.items) self.new.ever }
        ensures room { vec_capacity self.new.homes ≡ vec_capacity self.old.homes }
        ensures pool { arc_value self.new.pool ≡ arc_value self.old.pool }
        ensures ever { self.new.ever ≡ self.old.ever }
        ensures taken { HasTakenIn (map (λ h. hand_at (made_at h)) self.old.homes.items) (map (λ h. hand_at (made_at h)) self.new.homes.items)
            (view self.old.pass) (view self.new.pass) }
    {
        let mut rest = self.homes.len();
        while rest > 0 {
            rest -= 1;
            self.look_at(rest);
        }
    }

    // Takes in the hand of a place, where it came back.
    fn look_at(&mut self, at: usize)
        requires store { IsStore (arc_value self.old.pool).words B.tells self.old.pass (map made_at self.old.homes.items) self.old.ever }
        requires at { at < length self.old.homes.items }
        ensures store { IsStore (arc_value self.new.pool).words B.tells self.new.pass (map made_at self.new.homes.items) self.new.ever }
        ensures room { vec_capacity self.new.homes ≡ vec_capacity self.old.homes }
        ensures pool { arc_value self.new.pool ≡ arc_value self.old.pool }
        ensures ever { self.new.ever ≡ self.old.ever }
        ensures rest { at ≤ length self.new.homes.items }
        ensures taken { HasTakenIn (map (λ h. hand_at (made_at h)) self.old.homes.items) (map (λ h. hand_at (made_at h)) self.new.homes.items)
            (view self.old.pass) (view self.new.pass) }
    {
        match self.homes.remove(at).take() {
            Ok(hand) => self.join(hand),
            Err(home) => self.homes.push_reserved(home),
        }
    }

    // Takes in a hand that came back, whose place is none of the store's any more.
    fn join(&mut self, hand: Returned<U, B, N>)
        requires store { IsStoreOn (arc_value self.old.pool).words B.tells self.old.pass (length self.old.homes.items + 1) self.old.ever }
        requires hand { IsHandOn (arc_value hand.pool).words B.tells hand.pass hand.iface.frames }
        requires same { hand.pass.badge.table_id ≡ (arc_value self.old.pool).words.table.shared.table_id }
        ensures store { IsStoreOn (arc_value self.new.pool).words B.tells self.new.pass (length self.new.homes.items) self.new.ever }
        ensures rest { (arc_value self.new.pool ≡ arc_value self.old.pool) × (self.new.homes ≡ self.old.homes) × (self.new.ever ≡ self.old.ever) }
        ensures back { IsBackIn (view self.old.pass) (view hand.pass) (view self.new.pass) }
    {
        let Returned {
            pool,
            mut pass,
            mut iface,
        } = hand;
        iface.give_all(&pool.words, &mut pass);
        self.pool.join(&mut self.pass, pass);
    }
}

impl<S: OfSize<N>, B: PageBlock<N> + Drop, const N: usize> TreeStore<TreeOf<WordKeys<S, N>>, B, N> {
    /// Writes the dirty pages, and closes the store: the blocks come back, in the order of their pages.
    pub fn close(
        self,
        alloc: Global,
    ) -> Result<
        Summary<TreeOf<WordKeys<S, N>>, B>,
        Closing<TreeStore<TreeOf<WordKeys<S, N>>, B, N>>,
    >
        requires store { IsStore (arc_value self.pool).words B.tells self.pass (map made_at self.homes.items) self.ever }
        ensures closed { IfOk result (λ end. IsClosedOn N B.tells end.report.failed (block_words (map B.stored end.blocks.items)) (view self.pass)) }
        ensures count { IfOk result (λ end. length end.blocks.items ≡ (arc_value self.pool).words.table.shared.key.pages) }
        ensures refused { IfErr result (λ why. IsNotClosed self (length self.homes.items) why) }
    {
        if self.homes.len() != 0 {
            return Err(Closing::Hands(self));
        }
        let TreeStore {
            pool,
            pass,
            homes,
            ever,
        } = self;
        let pool = match Arc::try_unwrap(pool) {
            Ok(pool) => pool,
            Err(pool) => {
                return Err(Closing::Shared(TreeStore {
                    pool,
                    pass,
                    homes,
                    ever,
                }));
            }
        };
        let Ok(saved) = flush_and_close(pool, alloc, pass) else {
            return Err(Closing::Memory);
        };
        let Saved { report, closed } = saved;
        let Closed {
            blocks,
            next: _,
            ended,
        } = closed;
        Ok(Summary {
            report,
            blocks,
            ended,
        })
    }
}

// How many frames the interface of one of the most hands keeps: a quarter of its share, at most 64.
fn share_of_one(frames: usize) -> u32
    ensures { (1 ≤ result) × (result ≤ 64) }
{
    (frames / 256).min(64).max(1) as u32
}
