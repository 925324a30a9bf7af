//! Kinds of nodes whose pages are read into a buffer.

use crate::kind::Kind;
use vm_block::Block;
use vm_guard::OptGuard;
use vm_guard::rule::{Pass, Words};
use vm_owner::Ungrouped;

/// A kind of node with a buffer of a page's words, and the calls on it.
pub trait Pages: Kind {
    type Page: Drop;

    ghost use Rattle.std.specs.Prelude.{◌≡◌, ◌<◌, length, List, replicate, slice_index, ℕ};
    ghost use Rattle.vm_tree_model.specs.{Node.Covers, Page.node_of};
    ghost use Rattle.vm_guard.specs.from_vm_step.Prelude.{GoesOn, IsReadyOn, view};
    ghost use Rattle.vm_guard.specs.{Guards.IsReading, Guards.Loads, Guards.placed, PageWords.LoadsWords};
    ghost use Rattle.vm_node.specs.Loads.{IsAnswer};

    // The words in the buffer.
    ghost words_of: { Self.Page → List ℕ };

    /// A page of zeros.
    fn zero() -> Self::Page
        ensures { words_of result ≡ replicate Self.layout.words 0 };

    /// Word `i`.
    fn word(page: &Self::Page, i: usize) -> u64
        requires { i < Self.layout.words }
        ensures word { result ≡ slice_index (words_of page.now) i }
        ensures size { length (words_of page.now) ≡ Self.layout.words };

    /// Reads all words of the page under the guard.
    fn read_all<U: Ungrouped, B: Block>(
        guard: &OptGuard,
        words: &Words<U, B>,
        pass: &mut Pass<U>,
        into: &mut Self::Page,
    )
        requires ready { IsReadyOn words.now B.tells pass.old }
        requires reading { IsReading guard.now.pid guard.now.word guard.now.frame (view pass.old) }
        requires size { Self.layout.words ≡ words.now.table.shared.key.size }
        requires page { length (words_of into.old) ≡ Self.layout.words }
        ensures goes { GoesOn words.now B.tells pass.old pass.new }
        ensures size { length (words_of into.new) ≡ Self.layout.words }
        ensures loads { Loads guard.now.pid guard.now.word guard.now.frame (placed 0 (words_of into.new)) (view pass.old) (view pass.new) }
        ensures words { LoadsWords (words_of into.new) (view pass.old) (view pass.new) };

    /// How much of its room the page has left.
    fn spare_of(page: &Self::Page) -> usize
        ensures { result ≡ Self.spare (words_of page.now) };

    /// Whether the page has a leaf's tag.
    fn is_leaf(page: &Self::Page) -> bool
        ensures { IsAnswer result ((node_of Self.layout (words_of page.now)).tag ≡ 2) };

    /// Whether the key lies in the page's fences, from the low one on and below the high one.
    fn covers(page: &Self::Page, key: &Self::Key) -> bool
        ensures { IsAnswer result (Covers (node_of Self.layout (words_of page.now)) (Self.rank key.now)) };
}
