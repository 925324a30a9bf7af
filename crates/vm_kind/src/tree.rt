//! The tree of a kind of nodes as the owner of a page store.
ghost use Rattle.std.specs.Prelude.{◌==◌};
ghost use Rattle.vm_tree_laws.specs.{Plain.ProvesHeld, Plain.KeepsPlain, Plain.ReadsPlain, Plain.ReleasesPlain, Tied.Tied};
ghost use Rattle.vm_tree_laws.proofs.Plainly.{plain_claims, plain_holds, plain_moves, plain_reads, plain_releases, plain_ties};

use crate::kind::Kind;
use crate::word_keys::Words64;
use std::marker::PhantomData;
use vm_owner::{Owner, Ungrouped};

/// The tree of a kind of nodes. It has no state of its own: the pages are the store's, and what is kept of them is stated alone.
#[derive(Drop)]
pub struct TreeOf<K> {
    kind: PhantomData<K>,
}

/// The tree of pages of 64 words whose keys are words.
pub type Tree = TreeOf<Words64>;

impl<K: Kind> Owner for TreeOf<K> {
    type Said = K::Said;

    ghost takes_size = { λ n. n == K.layout.words };

    ghost keeps = { KeepsPlain K.plain K.layout };

    ghost may_release = { ReleasesPlain K.plain K.layout };

    ghost may_read = { ReadsPlain K.plain K.layout };

    ghost may_hold = { ProvesHeld K.plain K.layout };

    ghost tied = { Tied K.layout };

    ghost releases = { plain_releases K.plain K.layout K.is_layout };

    ghost reads = { λ start kept page entries keeps there. plain_reads K.plain K.layout K.is_layout start kept page entries keeps };

    ghost holds = { plain_holds K.plain K.layout K.is_layout };

    ghost claims = { plain_claims K.plain K.layout K.is_layout };

    ghost numbers = { plain_moves K.plain K.layout };

    ghost ties = { λ start kept r p keeps there other. plain_ties K.plain K.layout K.is_layout start kept r p keeps there };
}

impl<K: Kind> Ungrouped for TreeOf<K> {
    ghost use Rattle.std.proofs.Common.{refl};
    ghost use Rattle.vm_owner.proofs.Grouped.{takes-none};

    ghost ungrouped = { takes-none };

    ghost takes_none = { refl };
}
