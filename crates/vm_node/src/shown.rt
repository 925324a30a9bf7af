//! What a leaf shows from a key on.

ghost use Rattle.std.specs.Prelude.{[], ◌≡◌, ℕ, ◌&&◌, ◌+◌, ◌++◌, ◌*◌, ◌∷◌, ◌≤◌, length, min, nat_le, nat_lt};
ghost use Rattle.vm_map.specs.History.{between, bound_of};
ghost use Rattle.vm_map.specs.Map.{Rises};
ghost use Rattle.vm_map.specs.Windows.{IsWindow};
ghost use Rattle.vm_page.specs.Sizes.{IsSize};
ghost use Rattle.vm_tree_model.specs.Fixed.{capacity, fixed, high_of};
ghost use Rattle.vm_tree_model.specs.Node.{Covers};
ghost use Rattle.vm_tree_model.specs.Page.{pairs_of, node_of, IsLeaf};
ghost use Rattle.vm_node.specs.{Loads.Tells, Shows.AppendsRange, Shows.IsLeafWindow, Shows.ShowsFirst, Sizes.looks_for};

use crate::pairs::{count_at, lower_bound_at};
use crate::place::{Place, in_buffer};
use vm_map::span::Span;
use vm_map::window::{Bound, MOST_PAIRS, Pairs, Window};
use vm_page::PageBuf;

/// The first `most` pairs from the key `start` on, or all of them, of any page whose keys rise; a `most` above 28 is read as
/// 28. The bound is the key of the next pair where there is one, else the page's high fence, else the end. At most two words a pair are loaded,
/// and nine more of a page of 64, or twelve of one of 512.
pub fn window_at<P: Place>(place: &mut P, words: usize, start: u64, most: u32) -> Window
    requires ready { P.ready place.old }
    requires sized { IsSize words }
    requires size { P.size place.old ≡ words }
    ensures ready { P.ready place.new }
    ensures size { P.size place.new ≡ words }
    ensures told { Tells words P.loads place.old (2 * min most MOST_PAIRS + looks_for words + 4) place.new
        (λ page. ShowsFirst (fixed words) page start most result) }
{
    let room = most.min(MOST_PAIRS as u32) as usize;
    let count = count_at(place, words);
    let mut pairs = Pairs::new();
    for i in lower_bound_at(place, words, count, start)..count {
        let key = place.word(8 + 2 * i);
        if pairs.len() >= room {
            return Window {
                bound: Bound::Key(key),
                pairs,
            };
        }
        pairs.push(key, place.word(9 + 2 * i));
    }
    Window {
        bound: high_bound_at(place, words),
        pairs,
    }
}

/// The same, of a page in a buffer.
pub fn window<const N: usize>(page: &PageBuf<N>, start: u64, most: u32) -> Window
    requires { IsSize N }
    ensures first { (low high : ℕ) → Rises low high (pairs_of (fixed N) page.now)
        → IsWindow (pairs_of (fixed N) page.now) (node_of (fixed N) page.now).high start (min most MOST_PAIRS) result }
    ensures leaf { IsLeaf (fixed N) page.now → Covers (node_of (fixed N) page.now) start → 1 ≤ most → IsLeafWindow (fixed N) page.now start most result }
{
    let mut place = in_buffer(page);
    window_at(&mut place, N, start, most)
}

/// Appends the page's pairs from the key `from` on and below both `bound` and its high fence, and answers that fence. There must be room for as many
/// pairs as a page has place for. Each pair is looked at, so this is told of any page; at most two words for each and three more are loaded.
pub fn range_at<P: Place>(
    place: &mut P,
    words: usize,
    from: u64,
    bound: Bound,
    out: &mut Span,
) -> Bound
    requires ready { P.ready place.old }
    requires sized { IsSize words }
    requires size { P.size place.old ≡ words }
    requires room { capacity words ≤ out.old.1 }
    ensures ready { P.ready place.new }
    ensures size { P.size place.new ≡ words }
    ensures told { Tells words P.loads place.old (2 * capacity words + 3) place.new
        (λ page. AppendsRange (fixed words) page from bound out.old.0 out.new.0 result) }
    ensures room { out.old.1 ≤ out.new.1 + capacity words }
    ensures kept { out.new.1 + length out.new.0 ≡ out.old.1 + length out.old.0 }
{
    let high = high_bound_at(place, words);
    let count = count_at(place, words);
    for i in 0..count {
        let key = place.word(8 + 2 * i);
        let value = place.word(9 + 2 * i);
        push_within(out, from, high, bound, key, value);
    }
    high
}

// Whether the key lies in the range from `from` on and below both bounds.
fn lies_within(from: u64, high: Bound, bound: Bound, key: u64) -> bool
    ensures { result ≡ (nat_le from key && nat_lt key (min (bound_of high) (bound_of bound))) }
{
    from <= key && high.is_above(key) && bound.is_above(key)
}

// Appends a pair where it lies in the range.
fn push_within(out: &mut Span, from: u64, high: Bound, bound: Bound, key: u64, value: u64)
    requires room { 1 ≤ out.old.1 }
    ensures pairs { out.new.0 ≡ out.old.0 ++ between ((key, value) ∷ []) from (min (bound_of high) (bound_of bound)) }
    ensures room { out.old.1 ≤ out.new.1 + 1 }
    ensures kept { out.new.1 + length out.new.0 ≡ out.old.1 + length out.old.0 }
{
    if lies_within(from, high, bound, key) {
        out.push(key, value);
    }
}

// The high fence as a bound.
fn high_bound_at<P: Place>(place: &mut P, words: usize) -> Bound
    requires ready { P.ready place.old }
    requires sized { IsSize words }
    requires size { P.size place.old ≡ words }
    ensures ready { P.ready place.new }
    ensures size { P.size place.new ≡ words }
    ensures told { Tells words P.loads place.old 2 place.new (λ page. bound_of result ≡ high_of page) }
{
    if place.word(4) == 0 {
        Bound::Key(place.word(3))
    } else {
        Bound::End
    }
}
