//! The limits of the numbers of a command line.

ghost use Rattle.std.specs.Prelude.{◌≡◌};
ghost use Rattle.vm_endings.specs.Limits.{are_entries, are_frames, are_pages, are_pairs_to_churn, are_pairs_to_make, are_words, are_workers, holds_call, is_version, words_or};

use vm_event::MAX_VERSION;
use vm_image::PlannedFault;

/// Whether there are 1 to 64 workers.
pub fn are_workers(workers: u64) -> bool
    ensures { result ≡ are_workers workers }
{
    1 <= workers && workers <= 64
}

/// Whether there are 64 to 65,536 frames, and eight for each worker.
pub fn are_frames(workers: u64, frames: u64) -> bool
    ensures { result ≡ are_frames workers frames }
{
    64 <= frames && (frames <= 65_536 && workers <= frames / 8)
}

/// Whether so many frames hold the pages that one call on a tree of this height needs at once: page 0, the nodes of a way from the root to a leaf, two
/// fresh pages of a split, and four more levels, which a run may add. In fewer frames a call might be tried for ever.
pub fn holds_call(height: u64, frames: u64) -> bool
    ensures { result ≡ holds_call height frames }
{
    8 <= frames && height <= frames - 8
}

/// Whether a page can have this version.
pub fn is_version(version: u64) -> bool
    ensures { result ≡ is_version version }
{
    version <= MAX_VERSION
}

/// How many words a page has: as many as are asked for, and 64 where none are.
pub fn words_of(asked: Option<u64>) -> u64
    ensures { result ≡ words_or asked }
{
    match asked {
        Some(words) => words,
        None => 64,
    }
}

/// Whether a page may have so many words: 64 or 512.
pub fn are_words(words: u64) -> bool
    ensures { result ≡ are_words words }
{
    words == 64 || words == 512
}

/// Whether there are 2 to 65,536 pages, and at most 8,192 where a page has 512 words.
pub fn are_pages(words: u64, pages: u64) -> bool
    ensures { result ≡ are_pages words pages }
{
    let most = if words == 512 { 8192 } else { 65_536 };
    2 <= pages && pages <= most
}

/// Whether a page file can be made of so many pairs: at most 1,000,000.
pub fn are_pairs_to_make(pairs: u64) -> bool
    ensures { result ≡ are_pairs_to_make pairs }
{
    pairs <= 1_000_000
}

/// Whether a churn can begin with so many pairs: 1 to 100,000.
pub fn are_pairs_to_churn(pairs: u64) -> bool
    ensures { result ≡ are_pairs_to_churn pairs }
{
    1 <= pairs && pairs <= 100_000
}

/// Whether there are at most 64 entries of planned failures.
pub fn are_entries(plan: &[PlannedFault]) -> bool
    ensures { result ≡ are_entries plan.now }
{
    plan.len() <= 64
}
