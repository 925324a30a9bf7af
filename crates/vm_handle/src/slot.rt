//! Room for one box, by its pointer, which is null where there is none.

ghost use Rattle.std.specs.Prelude.{◌≡◌, MatchOption, Some, None, Option};
ghost use Rattle.std.specs.Coded.{coded_option};
ghost use Rattle.std.specs.contracts.impls.GlobalAllocator.TheImpl.{ghosts};
ghost use Rattle.vm_handle.specs.Slots.{slot_owns};

use crate::loose::Loose;
use std::alloc::Global;
use std::marker::Model;
use std::ptr::null_mut;

/// A box or none.
pub struct BoxSlot<T> {
    pub at: *mut T,
    pub alloc: Global,
    pub ghost value: { Option T } by { coded_option T.code },
}

impl<T> Model for BoxSlot<T> {
    ghost also_owns = { λ s. slot_owns (ghosts.dealloc_token s.alloc) T.row s.at s.value };
}

impl<T> BoxSlot<T> {
    /// Room with no box in it.
    pub fn empty(alloc: Global) -> BoxSlot<T>
        ensures { result.value ≡ None }
    {
        BoxSlot {
            at: null_mut(),
            alloc,
        }
    }

    fn of_loose(loose: Loose<T, Global>) -> BoxSlot<T>
        ensures { result.value ≡ Some loose.value }
    {
        let Loose { at, alloc } = loose;
        BoxSlot { at, alloc }
    }

    fn into_loose(self) -> Option<Loose<T, Global>>
        ensures { MatchOption result (self.value ≡ None) (λ loose. self.value ≡ Some loose.value) }
    {
        let BoxSlot { at, alloc } = self;
        if at.is_null() {
            None
        } else {
            Some(Loose { at, alloc })
        }
    }
}

impl<T: Drop> BoxSlot<T> {
    /// The box in its room.
    pub fn of(value: Box<T, Global>) -> BoxSlot<T>
        ensures { result.value ≡ Some value.value }
    {
        BoxSlot::of_loose(Loose::of(value))
    }

    /// The box that was there.
    pub fn into_box(self) -> Option<Box<T, Global>>
        ensures { MatchOption result (self.value ≡ None) (λ b. self.value ≡ Some b.value) }
    {
        match self.into_loose() {
            Some(loose) => Some(loose.into_box()),
            None => None,
        }
    }
}
