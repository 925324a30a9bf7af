//! The levels of the tree that is built, from the leaves up: the entries of each are put into nodes, and their low fences are the entries of the next.

ghost use Rattle.std.specs.Prelude.{◌≡◌, ◌<◌, ◌≤◌, ◌++◌, IfOk, OnOk, length};
ghost use Rattle.vm_page.specs.Sizes.{IsSize};
ghost use Rattle.vm_build.specs.Build.{tree_nodes};
ghost use Rattle.vm_build.specs.Levels.{entries_above as entries_over, level_pages, nodes_for as nodes_of};

use crate::node::{fill, low_of, node_of};
use std::alloc::{AllocError, Global};
use vm_map::call::Pair;
use vm_page::PageBuf;

/// How many nodes so many entries fill, on pages of so many words: at least one.
pub(crate) fn nodes_for(words: usize, entries: usize) -> usize
    requires sized { IsSize words }
    requires few { entries ≤ 4294967295 }
    ensures { result ≡ nodes_of words entries }
{
    let fill = fill(words);
    ((entries + (fill - 1)) / fill).max(1)
}

/// Pushes the nodes of all levels over up to 2,064,132 pairs by rising key, behind page 0.
pub(crate) fn push_levels<const N: usize>(
    alloc: Global,
    pairs: Vec<Pair>,
    pages: &mut Vec<PageBuf<N>>,
) -> Result<(), AllocError>
    requires sized { IsSize N }
    requires few { length pairs.items ≤ 2064132 }
    requires one { length pages.old.items ≡ 1 }
    ensures { OnOk result (pages.new.items ≡ pages.old.items ++ tree_nodes N pairs.items) }
{
    let mut entries = pairs;
    let mut level = 0;
    'levels: while entries.len() > fill(N) {
        let above = entries_above(alloc, N, pages.len() as u64, &entries)?;
        push_level(level, &entries, pages)?;
        entries = above;
        level += 1;
    }
    push_level(level, &entries, pages)
}

// Pushes the nodes of one level.
fn push_level<const N: usize>(
    level: u64,
    entries: &[Pair],
    pages: &mut Vec<PageBuf<N>>,
) -> Result<(), AllocError>
    requires sized { IsSize N }
    requires few { length entries.now ≤ 2064132 }
    ensures { OnOk result (pages.new.items ≡ pages.old.items ++ level_pages N level entries.now (nodes_of N (length entries.now))) }
{
    for n in 0..nodes_for(N, entries.len()) {
        pages.push(node_of(level, entries, n))?;
    }
    Ok(())
}

// The entries of the next level: the low fences of the nodes, of which the first is at this page.
fn entries_above(
    alloc: Global,
    words: usize,
    page: u64,
    entries: &[Pair],
) -> Result<Vec<Pair>, AllocError>
    requires sized { IsSize words }
    requires few { length entries.now ≤ 2064132 }
    requires page { page ≤ 1000000000 }
    ensures { IfOk result (λ above. above.items ≡ entries_over words page entries.now (nodes_of words (length entries.now))) }
{
    let nodes = nodes_for(words, entries.len());
    let mut above = Vec::with_capacity(alloc, nodes)?;
    for n in 0..nodes {
        above.push(Pair {
            key: low_of(words, entries, n),
            value: page + n as u64,
        })?;
    }
    Ok(above)
}
