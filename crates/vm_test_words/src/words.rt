//! Pages that are given by their words, of 64 words and of 512.

ghost use Rattle.vm_page.specs.Sizes.{IsSize};

use vm_node::{Edit, left_word};
use vm_page::PageBuf;

/// The words of a node with this header and `count` pairs: the key `first`, and then each `step` above the one before; a value is `more` above its
/// key. Behind them are zeros.
pub fn node_words<const N: usize>(
    header: [u64; 8],
    first: u64,
    count: u64,
    (step, more): (u64, u64),
) -> [u64; N] {
    let mut words = [0; N];
    for i in 0..N {
        words[i] = if i < 8 {
            header[i]
        } else {
            let pair = (i as u64 - 8) / 2;
            let key = first.wrapping_add(pair.wrapping_mul(step));
            match (pair < count, i % 2 == 0) {
                (false, _) => 0,
                (true, true) => key,
                (true, false) => key.wrapping_add(more),
            }
        };
    }
    words
}

/// The words of a leaf with this header and the pairs (first, first), (first + 1, first + 1), .. and zeros behind them.
pub fn leaf_words<const N: usize>(header: [u64; 8], first: u64, count: u64) -> [u64; N] {
    node_words(header, first, count, (1, 0))
}

/// The page of these words.
pub fn page_of<const N: usize>(words: [u64; N]) -> PageBuf<N>
    requires { IsSize N }
{
    let mut page = PageBuf::zero();
    for i in 0..N {
        page.set(i, words[i]);
    }
    page
}

/// All words of the page.
pub fn words_of<const N: usize>(page: &PageBuf<N>) -> [u64; N] {
    let mut words = [0; N];
    for i in 0..N {
        words[i] = page.get(i);
    }
    words
}

/// The words of the page as the edit leaves it.
pub fn edited_words<const N: usize>(page: &PageBuf<N>, edit: &Edit) -> [u64; N]
    requires { IsSize N }
{
    let (first, end) = edit.changes(N);
    let mut words = [0; N];
    for i in 0..N {
        words[i] = if i == 1 || (first <= i && i < end) {
            edit.word(page, i)
        } else {
            page.get(i)
        };
    }
    words
}

/// The words of the left half of the page.
pub fn left_words<const N: usize>(page: &PageBuf<N>, separator: u64) -> [u64; N]
    requires { IsSize N }
{
    let mut words = [0; N];
    for i in 0..N {
        words[i] = left_word(page, separator, i);
    }
    words
}
