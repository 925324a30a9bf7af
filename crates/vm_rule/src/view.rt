// What a pass knows, as plain data. No value of these types is made: contracts and proofs alone speak of them.
use crate::began::Began;
use std::collections::LinkedList;
use vm_block::Stored;
use vm_event::{Mapping, Seat};
use vm_owner::Entry;

/// One change of a function from numbers. A list of them, the last change first, is a function.
pub struct Put<X> {
    pub place: u64,
    pub value: X,
}

/// What a pass that has a page locked knows of it: where it stands, its fault word and its block, and the owner word of its frame.
pub struct Held {
    pub mapping: Option<Mapping>,
    pub fault: u64,
    pub block: Stored,
    pub owner: u64,
}

/// What a table is told when it is made: how many words a page has, its numbers of pages and frames, the first version of every page, and the least page number
/// that was not claimed. For proofs alone it has also how the table began, with its first words and blocks.
#[derive(Drop)]
pub struct TableShape {
    pub size: u64,
    pub pages: u64,
    pub frames: u64,
    pub version: u64,
    pub next: u64,
    pub began: Began,
}

/// How the table began: its shape, and the words and bounds of its pages' blocks.
pub struct Origin {
    /// Whether the blocks tell their words.
    pub tells: bool,
    /// How many words a page has.
    pub size: u64,
    pub pages: u64,
    pub frames: u64,
    /// The first version of every page.
    pub version: u64,
    /// The least page number that was not claimed.
    pub next: u64,
    /// The pages below it whose numbers were free.
    pub free: LinkedList<u64>,
    /// The groups of pages, each with its first page and its size.
    pub groups: LinkedList<(u64, u64)>,
    /// The words of each page.
    pub contents: LinkedList<LinkedList<u64>>,
    /// The bound of each page's block.
    pub bounds: LinkedList<u64>,
}

/// A version of a page that was released.
pub struct Release {
    pub page: u64,
    pub version: u64,
    pub words: LinkedList<u64>,
}

/// While `page` is at `version`, its words are tied to `words`, which were those of the page `of`.
pub struct Tie {
    pub page: u64,
    pub version: u64,
    pub of: u64,
    pub words: LinkedList<u64>,
}

/// The translation word of `page` that was loaded while the pass read the page at `version`.
pub struct Translation {
    pub page: u64,
    pub version: u64,
    pub word: u64,
}

/// A device fault of a page: the count that its fault word was raised to.
pub struct Note {
    pub page: u64,
    pub count: u64,
}

/// A block that is out, as it was when it was taken out.
pub struct Out {
    pub page: u64,
    /// The slot itself is with the pass: a move of the block is under way.
    pub moving: bool,
    pub block: Stored,
}

/// The place of a word of the table.
pub enum WordPlace {
    State(u64),
    Translation(u64),
    Fault(u64),
    /// A word of a frame: the frame and the place in it.
    Content(u64, u64),
    Bundle(u64),
    Next,
    Hand,
    /// The owner word of a frame.
    Owner(u64),
    /// A free-number word: 64 pages, one bit each.
    Spare(u64),
}

/// One step of the pass on a word: what it expected, the word found, the word left there. A load leaves none, a store finds none.
pub struct Did {
    pub at: WordPlace,
    pub expects: Option<u64>,
    pub found: Option<u64>,
    pub wrote: Option<u64>,
}

/// The whole table as a pass that is alone knows it.
pub struct Snapshot {
    pub words: LinkedList<u64>,
    pub blocks: LinkedList<Stored>,
}

/// What a pass knows.
pub struct View<X> {
    /// False of a pass that was joined away.
    pub live: bool,
    pub start: Origin,
    /// By page: the pass's shares, its exclusive lock, its write-back, its open read.
    pub seats: LinkedList<Put<Seat>>,
    /// By page: the places and words that were loaded through the open read.
    pub loads: LinkedList<Put<LinkedList<(u64, u64)>>>,
    /// By page: what a pass that has the page locked knows of it.
    pub held: LinkedList<Put<Held>>,
    /// By page: the words of a page that the pass holds exclusively.
    pub drafts: LinkedList<Put<LinkedList<u64>>>,
    /// The free frames that the pass holds.
    pub frames: LinkedList<u64>,
    /// By frame: the words of a free frame that the pass holds.
    pub contents: LinkedList<Put<LinkedList<u64>>>,
    /// The block that the pass has out.
    pub out: Option<Out>,
    pub translations: LinkedList<Translation>,
    pub ties: LinkedList<Tie>,
    /// The members of a group that is released in part: those still to be released.
    pub pending: LinkedList<u64>,
    /// The pages claimed for a group that is not released yet. Only which they are counts: here the pages of a later claim stand in front, in what
    /// the layer above keeps they stand behind.
    pub owed: LinkedList<u64>,
    /// The page numbers that the pass holds.
    pub numbers: LinkedList<u64>,
    /// The pages that the first release of a group of the pass freed, and whose numbers it has still to give.
    pub freed: LinkedList<u64>,
    /// The next word, where the pass loaded it while it held that very page.
    pub next: Option<u64>,
    pub notes: LinkedList<Note>,
    pub releases: LinkedList<Release>,
    pub seen: LinkedList<Entry<X>>,
    pub mine: LinkedList<Entry<X>>,
    pub used: LinkedList<u64>,
    pub fresh: LinkedList<u64>,
    /// Beginnings of the two lists that were learned from a pass that was joined, until the next step.
    pub told_releases: LinkedList<Release>,
    pub told: LinkedList<Entry<X>>,
    /// The numbers of the pass from which `told` was learned: none of them has an entry behind it.
    pub told_used: LinkedList<u64>,
    /// The pass made a step since it was split or joined, and the table was then `snapshot`.
    pub current: bool,
    pub snapshot: Snapshot,
    /// The steps of the pass on words of the table, in order.
    pub log: LinkedList<Did>,
}
