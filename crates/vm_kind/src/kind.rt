//! A kind of node: what the words of a page mean, and the calls on a page that stands in a frame.

use vm_inner::Fenced;
use vm_map::call::Swap;
use vm_node::Place;

/// A kind of node. It is no value: a type stands for it. The calls work on any words, and what they answer they tell of each page that has the
/// words loaded.
pub trait Kind {
    type Key: Drop;

    type Said: Drop;

    ghost use Rattle.std.specs.Prelude.{◌≡◌, ◌≢◌, ◌⊎◌, ◌+◌, ◌<◌, ◌≤◌, List, MatchOption, unwrap_or, ℕ};
    ghost use Rattle.std.specs.Option.{option_map};
    ghost use Rattle.vm_map.specs.declared.call.Said.{Said as PlainSaid};
    ghost use Rattle.vm_map.specs.declared.call.Call.TheVariants.{Get, Put, Del, Swap as ForSwap};
    ghost use Rattle.vm_map.specs.declared.call.Reply.TheVariants.{Got, Was, Gone, Swapped};
    ghost use Rattle.vm_map.specs.Map.{Rises, lookup_at};
    ghost use Rattle.vm_tree_model.specs.Layout.{Layout, IsLayout, IsClean, size};
    ghost use Rattle.vm_tree_model.specs.{Page.pairs_of, Page.node_of};
    ghost use Rattle.vm_node.specs.Loads.{IsAnswer, Tells};
    ghost use Rattle.vm_inner.specs.Found.{FindsChildIn, FindsNoChild};
    ghost use Rattle.vm_kind.specs.Bounds.{Bounds};

    // How words mean a node, and what a node weighs.
    ghost layout: { Layout };

    ghost is_layout: { IsLayout layout };

    // Which number stands for a key.
    ghost rank: { Self.Key → ℕ };

    // What was said, with numbers for keys.
    ghost plain: { Self.Said → PlainSaid };

    // How much of its room a page has left, as its words tell.
    ghost spare: { List ℕ → ℕ };

    ghost spare_is: { (words : List ℕ) → IsClean layout words → spare words + size layout (node_of layout words) ≡ layout.room };

    // How many words each call loads at most.
    ghost bounds: { Bounds };

    /// How many words a page has.
    fn words() -> usize
        ensures { result ≡ layout.words };

    /// What a further pair takes of a node's room at most.
    fn growth() -> usize
        ensures { result ≡ layout.growth };

    /// What a pair of this key takes of it.
    fn pair_size(key: &Self::Key) -> usize
        ensures { result ≡ layout.pair_size (rank key.now) };

    /// The lowest key.
    fn lowest() -> Self::Key
        ensures { rank result ≡ 0 };

    /// The key once more.
    fn same_key(key: &Self::Key) -> Self::Key
        ensures { rank result ≡ rank key.now };

    /// A key is below the end of all keys. Nothing is done.
    fn in_range(key: &Self::Key)
        ensures { rank key.now < layout.key_end };

    /// How much of its room the page has left.
    fn spare_at<P: Place>(place: &mut P) -> usize
        requires ready { P.ready place.old }
        requires size { P.size place.old ≡ layout.words }
        ensures ready { P.ready place.new }
        ensures size { P.size place.new ≡ layout.words }
        ensures told { Tells layout.words P.loads place.old bounds.spare place.new (λ page. result ≡ spare page) };

    /// Whether the page has a leaf's tag, from one word loaded.
    fn is_leaf_at<P: Place>(place: &mut P) -> bool
        requires ready { P.ready place.old }
        requires size { P.size place.old ≡ layout.words }
        ensures ready { P.ready place.new }
        ensures size { P.size place.new ≡ layout.words }
        ensures told { Tells layout.words P.loads place.old 1 place.new (λ page. IsAnswer result ((node_of layout page).tag ≡ 2)) };

    /// Whether the page has just these fences. No high fence stands for the end of all keys.
    fn has_fences_at<P: Place>(place: &mut P, low: &Self::Key, high: &Option<Self::Key>) -> bool
        requires ready { P.ready place.old }
        requires size { P.size place.old ≡ layout.words }
        ensures ready { P.ready place.new }
        ensures size { P.size place.new ≡ layout.words }
        ensures told { Tells layout.words P.loads place.old bounds.fences place.new (λ page. IsAnswer result (((node_of layout page).low ≡ rank low.now)
            × ((node_of layout page).high ≡ unwrap_or (option_map rank high.now) layout.key_end))) };

    /// The child whose range has the key, of any page of this level whose keys rise, with the keys on both sides. Of other pages of this level it is
    /// that of a pair whose key is not above, or none where the first pair's key is; of a page of another level there is none.
    fn child_at<P: Place>(place: &mut P, level: u64, key: &Self::Key) -> Option<Fenced<Self::Key>>
        requires ready { P.ready place.old }
        requires size { P.size place.old ≡ layout.words }
        ensures ready { P.ready place.new }
        ensures size { P.size place.new ≡ layout.words }
        ensures told { Tells layout.words P.loads place.old bounds.child place.new (λ page. MatchOption result
            (((node_of layout page).level ≢ level) ⊎ FindsNoChild layout page (rank key.now))
            (λ child. FindsChildIn layout page (rank key.now) child.page (rank child.low) (option_map rank child.next)
            × ((node_of layout page).level ≡ level))) }
        ensures sides { MatchOption result (Unit {0})
            (λ child. (rank child.low ≤ rank key.now) × MatchOption child.next (Unit {0}) (λ above. rank key.now < rank above)) };

    /// The value at the key, of any page whose keys rise.
    fn find_at<P: Place>(place: &mut P, key: &Self::Key) -> Option<u64>
        requires ready { P.ready place.old }
        requires size { P.size place.old ≡ layout.words }
        ensures ready { P.ready place.new }
        ensures size { P.size place.new ≡ layout.words }
        ensures told { Tells layout.words P.loads place.old bounds.find place.new (λ page. (low high : ℕ) → Rises low high (pairs_of layout page)
            → result ≡ lookup_at (pairs_of layout page) (rank key.now)) };

    /// The look-up of a key, with what was found.
    fn got(key: &Self::Key, found: Option<u64>) -> Self::Said
        ensures { plain result ≡ record { call = Get (rank key.now); reply = Got found } };

    /// The put of a value at a key, with the value that was there.
    fn was(key: &Self::Key, value: u64, old: Option<u64>) -> Self::Said
        ensures { plain result ≡ record { call = Put (rank key.now) value; reply = Was old } };

    /// The del of a key, with the value that was there.
    fn gone(key: &Self::Key, old: Option<u64>) -> Self::Said
        ensures { plain result ≡ record { call = Del (rank key.now); reply = Gone old } };

    /// The swap of the value at a key, with what it did.
    fn swapped(key: &Self::Key, want: u64, value: u64, outcome: Swap) -> Self::Said
        ensures { plain result ≡ record { call = ForSwap (rank key.now) want value; reply = Swapped outcome } };
}
