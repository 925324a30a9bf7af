// The evidence of an answer that asks to try again.

/// A word of the table that several passes step on.
#[derive(Clone, Copy, Debug, PartialEq, Eq)]
pub enum At {
    /// A page's state word.
    Page(u32),
    /// A bundle's word.
    Bundle(u32),
    /// The next word.
    Next,
    /// A free-number word.
    Free(u32),
}

/// Why a call may be tried again: a word that it knew, and the word that it saw there.
#[derive(Clone, Copy, Debug, PartialEq, Eq)]
pub struct Saw {
    pub at: At,
    pub first: u64,
    pub seen: u64,
}
