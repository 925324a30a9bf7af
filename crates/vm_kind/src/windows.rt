//! Kinds of nodes of which windows are shown.

use crate::kind::Kind;
use vm_node::Place;

/// A kind of node with windows of its pairs.
pub trait Windows: Kind {
    ghost use Rattle.std.specs.Prelude.{◌≡◌, ◌+◌, ◌*◌, min, ℕ};
    ghost use Rattle.vm_map.specs.declared.window.TheConstants.{MOST_PAIRS};
    ghost use Rattle.vm_map.specs.declared.window.Window.{Window};
    ghost use Rattle.vm_map.specs.declared.call.Call.TheVariants.{Window as ForWindow};
    ghost use Rattle.vm_map.specs.declared.call.Reply.TheVariants.{Win};
    ghost use Rattle.vm_node.specs.{Loads.Tells, Shows.ShowsFirst};

    // How many words a window loads at most: so many for each pair, and so many more.
    ghost window_each: { ℕ };

    ghost window_most: { ℕ };

    /// The call of a window, and what it shows: the first `most` pairs from the key `start` on, or all of them, of any page whose keys rise; a `most` above 28 is
    /// read as 28. The bound is the key of the next pair where there is one, else the page's high fence, else the end.
    fn window_at<P: Place>(place: &mut P, start: &Self::Key, most: u32) -> Self::Said
        requires ready { P.ready place.old }
        requires size { P.size place.old ≡ Self.layout.words }
        ensures ready { P.ready place.new }
        ensures size { P.size place.new ≡ Self.layout.words }
        ensures told { (window : Window) × (Self.plain result ≡ record { call = ForWindow (Self.rank start.now) most; reply = Win window })
            × Tells Self.layout.words P.loads place.old (window_each * min most MOST_PAIRS + window_most) place.new
            (λ page. ShowsFirst Self.layout page (Self.rank start.now) most window) };
}
