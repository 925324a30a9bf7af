//! The two ends of a place: the value goes in at one, in one thread, and comes out at the other, in another.

ghost use Rattle.std.specs.Prelude.{◌≡◌};
ghost use Rattle.std.specs.Arc.{arc_value};
ghost use Rattle.vm_handover.specs.Places.{opened};

use crate::place::{EMPTY, GIVEN, Handed, Knows, Lays, Lifts, PlaceTable};
use atomic_table::Seat;
use std::alloc::Global;
use std::sync::Arc;

/// The end at which the value goes in. It has the slot of the place, which is empty.
#[derive(Drop)]
pub struct Giver<T: Handed> {
    pub(crate) place: Arc<PlaceTable<T>, Global>,
    pub(crate) seat: Seat<Option<T>, Knows<T::About>>,
    ghost sized: { ((arc_value place).shared.table_id.words ≡ 1) × ((arc_value place).shared.table_id.slots ≡ 1) },
    ghost seated: { (seat.table_id ≡ (arc_value place).shared.table_id) × (seat.id ≡ 0) × opened seat.me },
}

/// The end at which the value comes out.
#[derive(Drop)]
pub struct Taker<T: Handed> {
    pub(crate) place: Arc<PlaceTable<T>, Global>,
    ghost sized: { (arc_value place).shared.table_id.words ≡ 1 },
}

impl<T: Handed + Drop> Giver<T> {
    ghost use Rattle.vm_handover.specs.Ends.{giver_about};

    /// Gives the value. It never fails.
    pub fn give(self, value: T)
        requires { T.keeps (giver_about self) value }
    {
        let Giver { place, mut seat } = self;
        let empty = place.shared.exchange(&mut seat, 0, Some(value));
        let None = empty else { unreachable!() };
        place.shared.store::<Lays>(&mut seat, 0, GIVEN);
    }
}

impl<T: Handed + Drop> Taker<T> {
    ghost use Rattle.std.specs.Prelude.{IfErr, IfOk};
    ghost use Rattle.vm_handover.specs.Ends.{taker_about};

    /// The value, where it was given; else the end comes back as it was.
    pub fn take(self) -> Result<T, Taker<T>>
        ensures taken { IfOk result (T.keeps (taker_about self)) }
        ensures none { IfErr result (λ back. back ≡ self) }
    {
        let shared = &self.place.shared;
        let (found, mut seat) = shared.swap_new_seat::<Lifts<T>>(0, EMPTY);
        if found != GIVEN {
            return Err(self);
        }
        let value = shared.exchange(&mut seat, 0, None);
        Ok(value.unwrap())
    }
}
