// The pages that a clock chose for eviction, and what the looks that found them came to.
use arrayvec::ArrayVec;
use vm_event::FRAMES;

/// What the looks of a walk came to.
#[derive(Clone, Copy, Debug, PartialEq, Eq)]
pub struct Looks {
    /// Marked pages: candidates.
    pub found: u32,
    /// Pages chosen before in the same walk.
    pub again: u32,
    /// Unlocked pages, marked by the walk.
    pub marked: u32,
    /// Unlocked pages that changed before they could be marked.
    pub lost: u32,
    /// Pages that somebody had locked.
    pub held: u32,
    /// Evicted pages, and frames in which no page stands.
    pub gone: u32,
    /// Pages at the last version, which can't be evicted.
    pub worn: u32,
    /// The first of these.
    pub first_worn: Option<u32>,
}

/// Pages to evict, each with the word at which it was marked, and the looks that found them.
#[derive(Debug, Drop, PartialEq)]
pub struct Candidates {
    pub list: ArrayVec<(u32, u64), FRAMES>,
    pub looks: Looks,
}
