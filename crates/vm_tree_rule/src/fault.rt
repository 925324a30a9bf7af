// Why a call on the tree ended without a reply.

/// A call that ends so has no entry in the history, and has left the map as it was.
#[derive(Clone, Copy, Debug, Drop, PartialEq, Eq)]
pub enum TreeFault {
    /// The device of this page failed.
    Device { pid: u32, count: u64 },
    /// The image has no page left for a split.
    Full { pages: u32 },
    /// This page is at the last version.
    Worn { pid: u32 },
    /// The words of this page are not what the way to it says. Never where blocks tell their words.
    Damaged { pid: u32 },
}
