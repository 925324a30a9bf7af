//! The header of a node: the words before its pairs that say what it is and for which keys it answers.

ghost use Rattle.std.specs.Prelude.{◌≡◌, ℕ, ◌≤◌, length, slice_index};
ghost use Rattle.vm_page.specs.Sizes.{IsSize};

use vm_page::PageBuf;

/// The first six words of a node. A node without a high fence has `endless` 1 and `high` 0; one with a high fence has
/// `endless` 0.
#[derive(Clone, Copy)]
pub struct Header {
    pub tag: u64,
    pub count: u64,
    pub low: u64,
    pub high: u64,
    pub endless: u64,
    pub level: u64,
}

/// Writes the header; the words behind it stay.
pub fn write_header<const N: usize>(page: &mut PageBuf<N>, header: Header)
    requires sized { IsSize N }
    ensures tag { slice_index page.new 0 ≡ header.tag }
    ensures count { slice_index page.new 1 ≡ header.count }
    ensures low { slice_index page.new 2 ≡ header.low }
    ensures high { slice_index page.new 3 ≡ header.high }
    ensures endless { slice_index page.new 4 ≡ header.endless }
    ensures level { slice_index page.new 5 ≡ header.level }
    ensures rest { (i : ℕ) → 6 ≤ i → slice_index page.new i ≡ slice_index page.old i }
    ensures words { length page.new ≡ N }
{
    page.set(0, header.tag);
    page.set(1, header.count);
    page.set(2, header.low);
    page.set(3, header.high);
    page.set(4, header.endless);
    page.set(5, header.level);
}
