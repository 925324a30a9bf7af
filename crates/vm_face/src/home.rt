//! How a hand comes back to its store: it goes in at one end of a place, and the store takes it out at the other, whatever threads the two are on.

ghost use Rattle.std.specs.Arc.{arc_value};
ghost use Rattle.vm_face.specs.Homes.{IsHandOf};

use std::alloc::Global;
use std::sync::Arc;
use vm_block::PageBlock;
use vm_handover::Handed;
use vm_owner::{Owner, Ungrouped};
use vm_rule::words::{Knew, Pass};
use vm_serve::exmap::Interface;
use vm_serve::pool::Pool;

/// What a hand leaves to its store.
#[derive(Drop)]
pub struct Returned<U: Owner, B: PageBlock<N> + Drop, const N: usize> {
    pub pool: Arc<Pool<U, B, N>, Global>,
    pub pass: Pass<U>,
    pub iface: Interface,
}

// What comes back at a place is a hand of the store that made the place, under the number that was given with it: the place is about what the
// store's pass knew before it gave the hand.
impl<U: Ungrouped, B: PageBlock<N> + Drop, const N: usize> Handed for Returned<U, B, N> {
    type About = Knew<U::Said>;

    ghost keeps = { λ knew hand. IsHandOf knew.value (arc_value hand.pool).words B.tells hand.pass hand.iface.frames };
}
