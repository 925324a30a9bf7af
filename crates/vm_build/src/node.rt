//! One node of a level of the tree that is built: 20 of the level's entries, or 180 on a page of 512 words, or the rest, and the fences between
//! which they lie.

ghost use Rattle.std.specs.Prelude.{◌≡◌, ◌<◌, ◌≤◌, length};
ghost use Rattle.vm_page.specs.Sizes.{IsSize};
ghost use Rattle.vm_build.specs.Levels.{high_fence_of as high_fence, low_of as low_fence, node_page, node_words};
ghost use Rattle.vm_build.specs.Levels.{fill_of, nodes_for as nodes_of, run_of as entries_of};

use crate::levels::nodes_for;
use vm_map::call::Pair;
use vm_node::header::{Header, write_header};
use vm_page::{PageBuf, WORDS};

/// How many entries a node takes when it is built, on a page of so many words: there is room for 8 more before it is split, or for 72 more.
pub(crate) fn fill(words: usize) -> usize
    requires { IsSize words }
    ensures fill { result ≡ fill_of words }
    ensures some { 20 ≤ result }
    ensures most { result ≤ 180 }
{
    if words == WORDS { 20 } else { 180 }
}

/// Node `n` of a level with these entries.
pub(crate) fn node_of<const N: usize>(level: u64, entries: &[Pair], n: usize) -> PageBuf<N>
    requires sized { IsSize N }
    requires few { length entries.now ≤ 2064132 }
    requires node { n < nodes_of N (length entries.now) }
    ensures { result ≡ node_page N level entries.now n }
{
    node_with(
        level,
        low_of(N, entries, n),
        high_of(N, entries, n),
        run_of(N, entries, n),
    )
}

// The entries of node `n`.
fn run_of(words: usize, entries: &[Pair], n: usize) -> &[Pair]
    requires sized { IsSize words }
    requires few { length entries.now ≤ 2064132 }
    requires node { n < nodes_of words (length entries.now) }
    ensures run { result.now ≡ entries_of words entries.now n }
    ensures few { length result.now ≤ fill_of words }
{
    let fill = fill(words);
    &entries[fill * n..entries.len().min(fill * n + fill)]
}

/// The low fence of node `n`: its first key, but 0 for the first node.
pub(crate) fn low_of(words: usize, entries: &[Pair], n: usize) -> u64
    requires sized { IsSize words }
    requires node { n < nodes_of words (length entries.now) }
    ensures { result ≡ low_fence words entries.now n }
{
    if n == 0 {
        return 0;
    }
    let first = &entries[fill(words) * n];
    first.key
}

// The high fence of node `n`: the low fence of the node to its right, none for the last node.
fn high_of(words: usize, entries: &[Pair], n: usize) -> Option<u64>
    requires sized { IsSize words }
    requires few { length entries.now ≤ 2064132 }
    requires node { n < nodes_of words (length entries.now) }
    ensures { result ≡ high_fence words entries.now n }
{
    if n + 1 < nodes_for(words, entries.len()) {
        Some(low_of(words, entries, n + 1))
    } else {
        None
    }
}

// The node with these fences and as many entries as it takes at most.
fn node_with<const N: usize>(level: u64, low: u64, high: Option<u64>, run: &[Pair]) -> PageBuf<N>
    requires sized { IsSize N }
    requires few { length run.now ≤ fill_of N }
    ensures { result ≡ node_words N level low high run.now }
{
    let mut page = PageBuf::zero();
    write_header(
        &mut page,
        Header {
            tag: if level == 0 { 2 } else { 3 },
            count: run.len() as u64,
            low,
            high: high.unwrap_or(0),
            endless: u64::from(high.is_none()),
            level,
        },
    );
    for (i, entry) in run.iter().enumerate() {
        page.set(8 + 2 * i, entry.key);
        page.set(9 + 2 * i, entry.value);
    }
    page
}
