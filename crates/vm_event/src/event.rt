//! The machine's events and what they see: one variant for each kind of atomic action that a running pool does on a shared word, a frame
//! or a block.

use thiserror::Error;

/// How many pages, frames and actors a core has, and its first next word.
#[derive(Clone, Copy)]
pub struct CoreShape {
    pub pages: u32,
    pub frames: u32,
    pub actors: u32,
    /// The least page number that is not claimed yet, at most `pages`.
    pub next: u32,
}

/// The frame that a page stands in, and whether the frame may differ from the page's block.
#[derive(Clone, Copy)]
pub struct Mapping {
    pub frame: u32,
    pub dirty: bool,
}

/// An optimistic read that was begun at a version; its frame is known once the translation is loaded.
#[derive(Clone, Copy)]
pub struct Open {
    pub version: u64,
    pub frame: Option<u32>,
}

/// What one actor has of one page.
#[derive(Clone, Copy)]
pub struct Seat {
    /// How many shared locks it has.
    pub shares: u32,
    /// Whether it holds the page exclusively.
    pub exclusive: bool,
    /// Whether it has the page under write-back.
    pub writing: bool,
    pub reading: Option<Open>,
}

/// One atomic action of one actor.
///
/// The fields: `a` is an actor, `p` a page, `f` a frame, `i` a word's place (0 to 63), `g` a bundle of 64 frames, `w` a word, `x` a page
/// number, `n` a number of pages (1 or 2). `mask` is a set of frames of a bundle, by their bits. An event with `expects` is a
/// compare-exchange: where the word is the expected one it is changed, and `Taken` is seen; else nothing changes, and `Lost` is seen with
/// the word found.
#[derive(Clone, Copy)]
pub enum Event {
    /// Actor `a` loads the state word of page `p`. An open read of `p` stays at its version, moves to the one seen,
    /// or is closed where the page is locked or evicted.
    Look {
        a: u32,
        p: u32,
    },
    /// Actor `a` exchanges the state word `expects` (unlocked, marked or evicted) of page `p` for the exclusive lock.
    LockX {
        a: u32,
        p: u32,
        expects: u64,
    },
    /// Actor `a` exchanges the state word `expects` (unlocked, marked or shared) of page `p` for one share more.
    LockS {
        a: u32,
        p: u32,
        expects: u64,
    },
    /// Actor `a` gives up one of its shares of page `p`.
    UnlockS {
        a: u32,
        p: u32,
    },
    /// Actor `a` exchanges the state word `expects` (unlocked) of page `p` for the clock's mark.
    Mark {
        a: u32,
        p: u32,
        expects: u64,
    },
    /// Actor `a` exchanges the state word `expects` (marked) of page `p` for the unlocked one.
    Unmark {
        a: u32,
        p: u32,
        expects: u64,
    },
    /// Actor `a` exchanges the state word `expects` (marked) of page `p` for one share, under which it writes the page back.
    LockW {
        a: u32,
        p: u32,
        expects: u64,
    },
    /// Actor `a`, which writes page `p` back, exchanges the state word `expects` (its one share) for the exclusive lock.
    Upgrade {
        a: u32,
        p: u32,
        expects: u64,
    },
    /// Actor `a` ends its exclusive lock of page `p`, which is resident, at the next version.
    Release {
        a: u32,
        p: u32,
    },
    /// Actor `a` ends its exclusive lock of page `p`, which has no frame: the page is evicted, at the next version.
    ReleaseE {
        a: u32,
        p: u32,
    },
    /// Actor `a` turns its exclusive lock of page `p` into a share, at the next version.
    Downgrade {
        a: u32,
        p: u32,
    },
    /// Actor `a` loads the translation word of page `p`. Its open read gets the frame seen, where it had none.
    TLoad {
        a: u32,
        p: u32,
    },
    /// Actor `a` puts its frame `f`, loaded with the block's words, under its locked page `p`, as clean.
    Install {
        a: u32,
        p: u32,
        f: u32,
    },
    /// Actor `a` takes its locked page `p`, which is clean, out of its frame, and holds the frame.
    Clear {
        a: u32,
        p: u32,
    },
    /// Actor `a` sets the dirty bit of its locked page `p`.
    Dirty {
        a: u32,
        p: u32,
    },
    /// Actor `a` clears the dirty bit of page `p`, which it has written back.
    Clean {
        a: u32,
        p: u32,
    },
    /// Actor `a` loads word `i` of page `p`: of its frame under a lock, else of the frame of the open read.
    Load {
        a: u32,
        p: u32,
        i: u32,
    },
    /// Actor `a` stores `w` as word `i` of frame `f`.
    Store {
        a: u32,
        f: u32,
        i: u32,
        w: u64,
    },
    /// Actor `a` loads the word of bundle `g`.
    BLoad {
        a: u32,
        g: u32,
    },
    /// Actor `a` exchanges the word `expects` of bundle `g` for that without the bits of `mask`, and holds those frames.
    Take {
        a: u32,
        g: u32,
        expects: u64,
        mask: u64,
    },
    /// Actor `a` sets the bits of `mask` in bundle `g`: its frames there are free again.
    Give {
        a: u32,
        g: u32,
        mask: u64,
    },
    /// Actor `a` reads the block of its locked page `p`.
    Read {
        a: u32,
        p: u32,
    },
    /// A read of the block of page `p` by actor `a` fails, and is counted.
    RFail {
        a: u32,
        p: u32,
    },
    /// Actor `a` writes the frame of page `p` to its block.
    Write {
        a: u32,
        p: u32,
    },
    /// A write of page `p` by actor `a` fails, and is counted; the block keeps its words.
    WFail {
        a: u32,
        p: u32,
    },
    /// Actor `a` sets the fault word of page `p` to its block's count of faults.
    Raise {
        a: u32,
        p: u32,
    },
    /// Actor `a` loads the next word, the least page number that was never claimed.
    NLoad {
        a: u32,
    },
    /// Actor `a` exchanges the next word `x` for `x + n`: the `n` pages from `x` on, which it has locked, are claimed.
    Claim {
        a: u32,
        x: u64,
        n: u32,
    },
    /// Actor `a` moves the clock's hand 64 pages on.
    Hand {
        a: u32,
    },
    /// Actor `a` writes into the owner word of its locked page's frame that the frame is page `p`'s: `p + 1`.
    Own {
        a: u32,
        p: u32,
    },
    /// Actor `a` writes into the owner word of its locked page's frame that the frame is no page's: 0.
    Disown {
        a: u32,
        p: u32,
    },
    /// Actor `a` loads the owner word of frame `f`.
    OLoad {
        a: u32,
        f: u32,
    },
    /// Actor `a` loads free-number word `g`.
    PBLoad {
        a: u32,
        g: u32,
    },
    /// Actor `a` exchanges free-number word `g`, if it is `expects`, for that without the bits of `mask`, and holds those page numbers.
    PTake {
        a: u32,
        g: u32,
        expects: u64,
        mask: u64,
    },
    /// Actor `a` sets the bits of `mask` in free-number word `g`: these page numbers are free.
    PGive {
        a: u32,
        g: u32,
        mask: u64,
    },
}

/// What a look leaves of the actor's open read.
#[derive(Clone, Copy, Debug, PartialEq)]
pub enum ReadIs {
    /// There was none, and one is opened at the version seen.
    Opened,
    /// It stays: the version seen is its own.
    Same,
    /// One at the version seen takes its place.
    Moved,
    /// There is none now: the page is locked or evicted.
    Closed,
}

/// What an event sees.
#[derive(Clone, Copy, Debug, PartialEq)]
pub enum Seen {
    /// Nothing but that it was done.
    Done,
    /// The word or count loaded: the one before the event where that changes it, but the new count of faults at a failed device call.
    Word(u64),
    /// The state word, and what the look leaves of the open read.
    Look { word: u64, left: ReadIs },
    /// The exchange was made.
    Taken,
    /// The exchange was not made; the word found.
    Lost(u64),
}

/// The event may not happen in this state.
#[derive(Clone, Copy, Debug, Error, PartialEq)]
#[error("the event may not happen in this state")]
pub struct Illegal;

/// An event on one page alone, by its actor: each is the event of the same name, its page and actor given apart.
#[derive(Clone, Copy)]
pub enum PageAct {
    Look,
    LockX(u64),
    LockS(u64),
    UnlockS,
    Mark(u64),
    Unmark(u64),
    LockW(u64),
    Upgrade(u64),
    Release,
    ReleaseE,
    Downgrade,
    TLoad,
    Dirty,
    Clean,
    Read,
    RFail,
    Write,
    WFail,
    Raise,
}
