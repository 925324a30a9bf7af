//! Kinds of nodes whose keys are numbers, of which ranges are answered.

use crate::windows::Windows;
use vm_map::call::Reply;
use vm_map::span::Span;
use vm_map::window::Bound;
use vm_node::Place;

/// A kind of node whose keys are numbers, so that a range of them is a list of numbered pairs.
pub trait Ranges: Windows {
    ghost use Rattle.std.specs.Prelude.{◌≡◌, ◌+◌, ◌*◌, ◌≤◌, length, ℕ};
    ghost use Rattle.vm_map.specs.declared.call.Call.TheVariants.{Range};
    ghost use Rattle.vm_map.specs.declared.call.Reply.TheVariants.{Many, Wide};
    ghost use Rattle.vm_node.specs.{Loads.Tells, Shows.AppendsRange};

    // How many pairs a node has at most.
    ghost pairs_most: { ℕ };

    /// How many pairs a node has at most.
    fn most_pairs() -> usize
        ensures { result ≡ pairs_most };

    /// The key that this number stands for.
    fn key_of(number: u64) -> Self::Key
        ensures { Self.rank result ≡ number };

    /// The reply alone.
    fn reply_of(said: Self::Said) -> Reply
        ensures { result ≡ (Self.plain said).reply };

    /// Appends the page's pairs from the key `from` on and below both `bound` and its high fence, and answers that fence. There must be room for as
    /// many pairs as a node has at most.
    fn range_at<P: Place>(place: &mut P, from: &Self::Key, bound: Bound, out: &mut Span) -> Bound
        requires ready { P.ready place.old }
        requires size { P.size place.old ≡ Self.layout.words }
        requires room { pairs_most ≤ out.old.1 }
        ensures ready { P.ready place.new }
        ensures size { P.size place.new ≡ Self.layout.words }
        ensures told { Tells Self.layout.words P.loads place.old (2 * pairs_most + 3) place.new
            (λ page. AppendsRange Self.layout page (Self.rank from.now) bound out.old.0 out.new.0 result) }
        ensures room { out.old.1 ≤ out.new.1 + pairs_most }
        ensures kept { out.new.1 + length out.new.0 ≡ out.old.1 + length out.old.0 };

    /// The call of a range, with all its pairs.
    fn many(low: &Self::Key, bound: Bound, pairs: Span) -> Self::Said
        ensures { Self.plain result ≡ record { call = Range (Self.rank low.now) bound; reply = Many pairs } };

    /// The call of a range that is too wide, with how far it was answered.
    fn wide(low: &Self::Key, bound: Bound, reach: u64) -> Self::Said
        ensures { Self.plain result ≡ record { call = Range (Self.rank low.now) bound; reply = Wide reach } };
}
