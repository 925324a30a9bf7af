//! What C holds by handles: a store over a page file's pages in memory, and its hands.

ghost use Rattle.std.specs.Prelude.{◌≡◌};

use vm_block::{MemBlock, PageBlock};
use vm_face::kind::{OfSize, TreeOf, WordKeys, Words64};
use vm_face::{Hand, TreeStore};

/// A store of pages of 64 words.
pub struct OpenStore {
    pub store: TreeStore<TreeOf<Words64>, MemBlock<64>, 64>,
}

/// A hand of such a store.
pub struct OpenHand {
    pub hand: Hand<TreeOf<Words64>, MemBlock<64>, 64>,
}

impl OpenStore {
    /// The store alone.
    pub fn into_store(self) -> TreeStore<TreeOf<Words64>, MemBlock<64>, 64>
        ensures { result ≡ self.store }
    {
        let OpenStore { store } = self;
        store
    }
}

impl OpenHand {
    /// The hand alone.
    pub fn into_hand(self) -> Hand<TreeOf<Words64>, MemBlock<64>, 64>
        ensures { result ≡ self.hand }
    {
        let OpenHand { hand } = self;
        hand
    }
}

impl Drop for OpenStore {
    fn drop(self) {
        let OpenStore { store } = self;
        let_store_go(store);
    }
}

impl Drop for OpenHand {
    fn drop(self) {
        let OpenHand { hand } = self;
        let_hand_go(hand);
    }
}

// Derived, the two impls would pass impls that the check does not find: so these functions say what their types are made of.
fn let_store_go<S: OfSize<N>, B: PageBlock<N> + Drop, const N: usize>(
    store: TreeStore<TreeOf<WordKeys<S, N>>, B, N>,
) {
    drop(store);
}

fn let_hand_go<S: OfSize<N>, B: PageBlock<N> + Drop, const N: usize>(
    hand: Hand<TreeOf<WordKeys<S, N>>, B, N>,
) {
    drop(hand);
}

// A value that may go to another thread.
fn sent<T: Send>(value: T) -> T {
    value
}

/// A hand may go to another thread.
pub fn sent_hand(hand: OpenHand) -> OpenHand {
    sent(hand)
}

/// So may a store.
pub fn sent_store(store: OpenStore) -> OpenStore {
    sent(store)
}
