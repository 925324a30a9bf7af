//! The words that a pool shares: the state word and the translation word of a page, and the word of a bundle of 64 frames.

ghost use Rattle.std.specs.Prelude.{◌<◌, ◌^◌, ◌≡◌, Some};
ghost use Rattle.vm_event.specs.Prelude.{frame_in, is_dirty, state_of, trans_word, version_of, word_of};
ghost use Rattle.vm_event.specs.Words.{AreLowest};

/// The last version of a page.
pub const MAX_VERSION: u64 = 0x00FF_FFFF_FFFF_FFFF;

/// How many versions there are: the states stand above them.
const VERSIONS: u64 = 0x0100_0000_0000_0000;

/// The top bit of a translation word.
pub const DIRTY: u64 = 0x8000_0000_0000_0000;

/// A state word: the state in the top 8 bits, the version in the 56 bits below.
///
/// The states from 1 to 252 are that many shared locks; the other four have names.
pub struct StateWord;

impl StateWord {
    /// Nobody has a lock.
    pub const UNLOCKED: u8 = 0;
    /// The most shared locks that a page can have.
    pub const MAX_SHARES: u8 = 252;
    /// One actor has the exclusive lock.
    pub const LOCKED: u8 = 253;
    /// Nobody has a lock, and the clock has passed by: a candidate for eviction.
    pub const MARKED: u8 = 254;
    /// The page has no frame.
    pub const EVICTED: u8 = 255;

    /// The word of a state and a version.
    #[tactic(auto, unfolding(crate::specs::Words::word_of))]
    pub fn of(state: u8, version: u64) -> u64
        requires { version < 2 ^ 56 }
        ensures { result ≡ word_of state version }
    {
        u64::from(state) * VERSIONS + version
    }

    /// The state of a word.
    #[tactic(auto, unfolding(crate::specs::Words::state_of))]
    pub fn state(w: u64) -> u8
        ensures { result ≡ state_of w }
    {
        (w / VERSIONS) as u8
    }

    /// The version of a word.
    #[tactic(auto, unfolding(crate::specs::Words::version_of))]
    pub fn version(w: u64) -> u64
        ensures { result ≡ version_of w }
    {
        w % VERSIONS
    }
}

/// A translation word: 0 for a page without a frame, else the frame's number plus 1 in the low 63 bits, and the top bit where it is dirty.
pub struct TransWord;

impl TransWord {
    /// The word of a page without a frame.
    pub const EMPTY: u64 = 0;

    /// The word of a page in this frame.
    pub fn of(frame: u32, dirty: bool) -> u64
        ensures word { result ≡ trans_word (Some (record { frame = frame; dirty = dirty })) }
        ensures frame { frame_in result ≡ Some frame }
        ensures dirty { is_dirty result ≡ dirty }
    {
        let low = u64::from(frame) + 1;
        if dirty { low + DIRTY } else { low }
    }

    /// The frame that a word names. A word whose low 63 bits are 0 names none, and neither does one whose frame would be no `u32`.
    #[tactic(auto, unfolding(crate::specs::Words::frame_in))]
    pub fn frame(w: u64) -> Option<u32>
        ensures { result ≡ frame_in w }
    {
        let low = w % DIRTY;
        if low == 0 || low > 0x1_0000_0000 {
            return None;
        }
        Some((low - 1) as u32)
    }

    /// Whether the top bit of a word is set.
    #[tactic(auto, unfolding(crate::specs::Words::is_dirty))]
    pub fn dirty(w: u64) -> bool
        ensures { result ≡ is_dirty w }
    {
        w / DIRTY == 1
    }
}

/// How many frames a bundle has: one for each bit of its word.
pub const FRAMES: usize = 64;

/// How many places the clock's hand is moved on at once.
pub const STRIDE: u64 = 64;

/// The word of bundle `g`: bit `i` is set where frame `64 * g + i` is free.
pub struct Bundle;

impl Bundle {
    /// The `n` lowest set bits of a word, or all where there are fewer.
    pub fn lowest(word: u64, n: u32) -> u64
        ensures { AreLowest word n result }
    {
        let mut count: u32 = 0;
        for i in 0..u64::BITS {
            if count == n {
                return word & ((1 << i) - 1);
            }
            if word >> i & 1 == 1 {
                count += 1;
            }
        }
        word
    }
}
