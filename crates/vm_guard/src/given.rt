// What a call for fresh pages answers, and why there is no room for them.
use crate::group::Group;
use vm_step::Saw;

/// What a call for fresh pages answers.
pub enum Fresh {
    /// The pages, in order, each with words of zeros: they are owed to the pass, or it has their numbers.
    Pages(Group),
    /// A page could not be locked, or the free-number word or the next page was another one meanwhile.
    Again(Saw),
    /// This page, which was to be given, is at its last version.
    Worn(u32),
    /// So many pages there are, this is the next one, and so many were asked for.
    Full { pages: u32, next: u32, need: u32 },
}

/// No free-number word has so many bits, and too few pages are left: so many there are, this is the next one, and so many were asked for.
pub struct NoRoom {
    pub pages: u32,
    pub next: u32,
    pub need: u32,
}
