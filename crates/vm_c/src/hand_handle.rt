//! What C keeps of a hand: one pointer, which is null where there is none.

ghost use Rattle.std.specs.Prelude.{◌≡◌, MatchOption, None, Option, Some};
ghost use Rattle.vm_c.specs.declared.opened.OpenHand.{OpenHand};
ghost use Rattle.vm_c.specs.HandHandles.{hand_coded, hand_owns};

use crate::opaque::Opaque;
use crate::opened::OpenHand;
use std::alloc::Global;
use std::marker::Model;
use std::mem;
use vm_handle::slot::BoxSlot;

/// A hand, or none.
#[repr(C)]
#[derive(Drop)]
pub struct HandHandle {
    at: *mut Opaque,
    alloc: Global,
    pub ghost value: { Option OpenHand } by { hand_coded },
}

impl Model for HandHandle {
    ghost also_owns = { λ h. hand_owns h.alloc h.at h.value };
}

impl HandHandle {
    fn of_slot(slot: BoxSlot<OpenHand>) -> HandHandle
        ensures { result.value ≡ slot.value }
    {
        let BoxSlot { at, alloc } = slot;
        HandHandle {
            at: at as *mut Opaque,
            alloc,
        }
    }

    fn into_slot(self) -> BoxSlot<OpenHand>
        ensures { result.value ≡ self.value }
    {
        let HandHandle { at, alloc } = self;
        BoxSlot {
            at: at as *mut OpenHand,
            alloc,
        }
    }

    /// Takes the hand out.
    pub fn take(&mut self, alloc: Global) -> Option<Box<OpenHand, Global>>
        ensures none { self.new.value ≡ None }
        ensures taken { MatchOption result (self.old.value ≡ None) (λ held. self.old.value ≡ Some held.value) }
    {
        let old = mem::replace(self, HandHandle::of_slot(BoxSlot::empty(alloc)));
        old.into_slot().into_box()
    }

    /// Puts a hand where there is none.
    pub fn put(&mut self, held: Box<OpenHand, Global>)
        requires { self.old.value ≡ None }
        ensures { self.new.value ≡ Some held.value }
    {
        *self = HandHandle::of_slot(BoxSlot::of(held));
    }
}
