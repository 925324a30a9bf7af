//! The place where the value goes in and comes out: a table of one word and one slot. The word says whether the value is there, and the
//! slot has it.

use atomic_table::{Play, Table, TableRule};
use std::alloc::Global;
use std::marker::PhantomData;

/// A value that is handed over, and what is known of it by a datum that is fixed when its place is made.
pub trait Handed {
    type About;

    ghost keeps: { Self.About → Self → Type 0 };
}

/// The word of a place that has no value: none was given, or it was taken.
pub(crate) const EMPTY: u64 = 0;

/// The word of a place that has the value.
pub(crate) const GIVEN: u64 = 1;

/// What a seat at the place knows. No value of it is made: contracts and proofs alone speak of it.
pub struct Knows<A> {
    /// The datum: each step of a new seat tells of it, as the first seat knew it.
    pub about: A,
    /// Whether the place was just made, and nobody has its slot.
    pub fresh: bool,
}

/// The rule of a place.
pub struct PlaceRule<T> {
    marker: PhantomData<T>,
}

impl<T: Handed> TableRule<Option<T>, Knows<T::About>, T::About> for PlaceRule<T> {
    ghost use Rattle.vm_handover.specs.Places.{IsInOrder, made};

    ghost holds = { IsInOrder T.keeps };

    ghost first = { made };
}

/// The place of one value.
pub(crate) type PlaceTable<T> = Table<
    Option<T>,
    Knows<<T as Handed>::About>,
    <T as Handed>::About,
    PlaceRule<T>,
    Global,
>;

/// The first seat takes the slot, which is empty.
pub(crate) struct Opens;

impl<T, A> Play<Option<T>, Knows<A>> for Opens {
    ghost use Rattle.vm_handover.specs.Places.{opened};

    ghost then = { λ _ _ _. opened };
}

/// The value comes into the place. The step tells nothing.
pub(crate) struct Lays;

impl<T, A> Play<Option<T>, Knows<A>> for Lays {
    ghost then = { λ _ _ _ _. Unit {0} };
}

/// A new seat takes the slot with the value, where it was given.
pub(crate) struct Lifts<T> {
    marker: PhantomData<T>,
}

impl<T: Handed> Play<Option<T>, Knows<T::About>> for Lifts<T> {
    ghost use Rattle.vm_handover.specs.Places.{lifted};

    ghost then = { λ _. lifted T.keeps };
}
