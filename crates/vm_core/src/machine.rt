//! The machine: a pool's pages, frames, bundle words and counters as plain values, and one step.
//!
//! It is the rule book of the running pool: which events may happen in a state, the state that each leads to, and what it
//! sees. The events on state words, frames, bundles, counters and owner words stand in the child modules, the acts on one
//! page in `page`.

ghost use Rattle.std.specs.Prelude.{◌<◌, ◌↔◌, ◌≡◌, ◌≤◌, IfOk, IsTrue, slice_index, true};
ghost use Rattle.vm_event.specs.Prelude.{core_start, GroupsFit, NamesActorAndPage, start};
ghost use Rattle.vm_core.specs.Prelude.{core_of, CoreData, CoreFits, Steps};
ghost use Rattle.vm_core.specs.CoreOf.{ActSteps};
ghost use Rattle.vm_event.specs.PageStep.{page_seen, PageLegal};
ghost use Rattle.vm_event.specs.Step.{acted, MayAct};

mod bundles;
mod counters;
mod frames;
mod heads;
mod numbers;
mod owners;

use crate::frames::FrameSet;
use crate::initial::{
    bundle_count, start_bundles, start_frames, start_heads, start_held, start_pages, start_words,
};
use crate::page::PageCell;
use std::alloc::Global;
use std::marker::Model;
use vm_event::{CoreShape, Event, Illegal, PageAct, Seen};
use vm_page::{Memory, WORDS};

/// The machine. For contracts it is the state `core_of core` of `specs/State.antt`: its shape, the heads of its pages, its
/// pages, the words of its frames, its bundle words, the frames that each actor holds, the next word, the hand, the owner
/// words, the free-number words and the page numbers that each actor holds.
#[derive(Drop)]
pub struct Core {
    shape: CoreShape,
    heads: Vec<u32>,
    pages: Vec<PageCell>,
    frames: Vec<[u64; WORDS]>,
    bundles: Vec<u64>,
    held: Vec<FrameSet>,
    next: u64,
    hand: u64,
    owners: Vec<u64>,
    spares: Vec<u64>,
    numbers: Vec<FrameSet>,
}

impl Model for Core {
    ghost Value = { CoreData };

    ghost view = { λ c. record {
      shape = c.shape;
      heads = c.heads.items;
      pages = c.pages.items;
      frames = c.frames.items;
      bundles = c.bundles.items;
      held = c.held.items;
      next = c.next;
      hand = c.hand;
      owners = c.owners.items;
      spares = c.spares.items;
      numbers = c.numbers.items;
    } };

    ghost invariant = { λ c.
        CoreFits (record {
          shape = c.shape;
          heads = c.heads.items;
          pages = c.pages.items;
          frames = c.frames.items;
          bundles = c.bundles.items;
          held = c.held.items;
          next = c.next;
          hand = c.hand;
          owners = c.owners.items;
          spares = c.spares.items;
          numbers = c.numbers.items;
        }) };
}

impl Core {
    /// The machine at the start: every page is evicted at version 0 with no fault, every frame is free, zero and no
    /// page's, nobody holds anything, and the hand is 0. Block `p` holds the words `64 * p + i` for pages below
    /// `shape.next`, and zeros from there on. Each of `groups` is its first page and its number of pages.
    pub fn new(alloc: Global, shape: CoreShape, groups: &[(u32, u32)]) -> Result<Self, Memory>
        requires next { shape.next ≤ shape.pages }
        requires groups { GroupsFit shape.pages groups.now }
        ensures { IfOk result (λ c. core_of c ≡ start (core_start shape groups.now)) }
    {
        let count = bundle_count(shape.frames);
        let heads = start_heads(alloc, shape.pages, groups)?;
        let pages = start_pages(alloc, shape)?;
        let frames = start_frames(alloc, shape.frames)?;
        let bundles = start_bundles(alloc, shape.frames, count)?;
        let held = start_held(alloc, shape.actors, count)?;
        let owners = start_words(alloc, shape.frames)?;
        let words = bundle_count(shape.pages);
        let spares = start_words(alloc, words)?;
        let numbers = start_held(alloc, shape.actors, words)?;
        Ok(Core {
            shape,
            heads,
            pages,
            frames,
            bundles,
            held,
            next: u64::from(shape.next),
            hand: 0,
            owners,
            spares,
            numbers,
        })
    }

    /// Its shape, with the next word that it had at the start.
    pub fn shape(&self) -> CoreShape
        ensures { result ≡ (core_of self.now).shape }
    {
        self.shape
    }

    /// Word `i` of the block of page `p`.
    pub fn block_word(&self, p: u32, i: u32) -> u64
        requires page { p < (core_of self.now).shape.pages }
        requires place { i < WORDS }
        ensures { result ≡ slice_index ((core_of self.now).pages p).block i }
    {
        self.pages[p as usize].block_word(i)
    }

    /// One event. `Illegal` is answered exactly where the event may not happen, with numbers outside the shape among the causes; the machine
    /// is then as it was. Else it is in the next state, and what the event sees is answered. No memory is taken.
    pub fn step(&mut self, event: Event) -> Result<Seen, Illegal>
        ensures { Steps self.old event result self.new }
    {
        match event {
            Event::Look { a, p } => self.on_head(a, p, PageAct::Look),
            Event::LockX { a, p, expects } => self.on_head(a, p, PageAct::LockX(expects)),
            Event::LockS { a, p, expects } => self.on_head(a, p, PageAct::LockS(expects)),
            Event::UnlockS { a, p } => self.on_head(a, p, PageAct::UnlockS),
            Event::Mark { a, p, expects } => self.on_head(a, p, PageAct::Mark(expects)),
            Event::Unmark { a, p, expects } => self.on_head(a, p, PageAct::Unmark(expects)),
            Event::LockW { a, p, expects } => self.on_head(a, p, PageAct::LockW(expects)),
            Event::Upgrade { a, p, expects } => self.on_head(a, p, PageAct::Upgrade(expects)),
            Event::Release { a, p } => self.leave(a, p, PageAct::Release),
            Event::ReleaseE { a, p } => self.on_head(a, p, PageAct::ReleaseE),
            Event::Downgrade { a, p } => self.leave(a, p, PageAct::Downgrade),
            Event::TLoad { a, p } => self.on_page(a, p, PageAct::TLoad),
            Event::Install { a, p, f } => self.install(a, p, f),
            Event::Clear { a, p } => self.clear(a, p),
            Event::Dirty { a, p } => self.on_page(a, p, PageAct::Dirty),
            Event::Clean { a, p } => self.on_page(a, p, PageAct::Clean),
            Event::Load { a, p, i } => self.load(a, p, i),
            Event::Store { a, f, i, w } => self.store(a, f, i, w),
            Event::BLoad { a, g } => self.bundle_load(a, g),
            Event::Take {
                a,
                g,
                expects,
                mask,
            } => self.take(a, g, expects, mask),
            Event::Give { a, g, mask } => self.give(a, g, mask),
            Event::Read { a, p } => self.on_page(a, p, PageAct::Read),
            Event::RFail { a, p } => self.on_page(a, p, PageAct::RFail),
            Event::Write { a, p } => self.on_page(a, p, PageAct::Write),
            Event::WFail { a, p } => self.on_page(a, p, PageAct::WFail),
            Event::Raise { a, p } => self.on_page(a, p, PageAct::Raise),
            Event::NLoad { a } => self.next_load(a),
            Event::Claim { a, x, n } => self.claim(a, x, n),
            Event::Hand { a } => self.hand(a),
            Event::Own { a, p } => self.own(a, p),
            Event::Disown { a, p } => self.disown(a, p),
            Event::OLoad { a, f } => self.owner_load(a, f),
            Event::PBLoad { a, g } => self.spare_load(a, g),
            Event::PTake {
                a,
                g,
                expects,
                mask,
            } => self.take_numbers(a, g, expects, mask),
            Event::PGive { a, g, mask } => self.give_numbers(a, g, mask),
        }
    }

    /// Whether the numbers name an actor and a page.
    fn names(&self, a: u32, p: u32) -> bool
        ensures { IsTrue result ↔ NamesActorAndPage (core_of self.now) a p }
    {
        a < self.shape.actors && p < self.shape.pages
    }

    /// Whether the act of the actor may happen at the page.
    fn may_at(&self, a: u32, p: u32, act: PageAct) -> bool
        requires { NamesActorAndPage (core_of self.now) a p }
        ensures { IsTrue result ↔ PageLegal true (core_of self.now).words ((core_of self.now).pages p) a act }
    {
        self.pages[p as usize].may(a as usize, act, &self.frames)
    }

    /// The act of the actor happens at the page.
    fn act_at(&mut self, a: u32, p: u32, act: PageAct) -> Seen
        requires { MayAct (core_of self.old) a p act }
        ensures next { core_of self.new ≡ acted (core_of self.old) a p act }
        ensures sight { result ≡ page_seen ((core_of self.old).pages p) a act }
    {
        let page = &mut self.pages[p as usize];
        page.act(a as usize, act, &self.frames)
    }

    /// An event on one page alone.
    fn on_page(&mut self, a: u32, p: u32, act: PageAct) -> Result<Seen, Illegal>
        ensures { ActSteps self.old a p act result self.new }
    {
        if !self.names(a, p) || !self.may_at(a, p, act) {
            return Err(Illegal);
        }
        Ok(self.act_at(a, p, act))
    }
}
