//! Whether the words of a page are 0.

ghost use Rattle.std.specs.Prelude.{◌≡◌, drop, length};
ghost use Rattle.vm_page.specs.Sizes.{IsSize};
ghost use Rattle.vm_tree_model.specs.Fixed.{fixed};
ghost use Rattle.vm_tree_model.specs.Walk.{all_zero, is_free};

use vm_page::PageBuf;

/// All words from word `from` on are 0.
pub fn is_zero_from<const N: usize>(page: &PageBuf<N>, from: usize) -> bool
    requires { IsSize N }
    ensures { result ≡ all_zero (drop from page.now) }
{
    // A page has N words.
    let _ = page.get(0);
    for i in from..N {
        if page.get(i) != 0 {
            return false;
        }
    }
    true
}

/// The page is free: its words are all 0.
#[tactic(auto, using(crate::proofs::ZeroWords::zero_first))]
pub fn is_free<const N: usize>(page: &PageBuf<N>) -> bool
    requires { IsSize N }
    ensures free { result ≡ is_free (fixed N) page.now }
    ensures zero { result ≡ all_zero page.now }
    ensures length { length page.now ≡ N }
{
    if page.get(0) != 0 {
        return false;
    }
    is_zero_from(page, 1)
}
