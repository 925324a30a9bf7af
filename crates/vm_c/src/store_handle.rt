//! What C keeps of a store: one pointer, which is null where there is none.

ghost use Rattle.std.specs.Prelude.{◌≡◌, MatchOption, None, Option, Some};
ghost use Rattle.vm_c.specs.declared.opened.OpenStore.{OpenStore};
ghost use Rattle.vm_c.specs.StoreHandles.{store_coded, store_owns};

use crate::opaque::Opaque;
use crate::opened::OpenStore;
use std::alloc::Global;
use std::marker::Model;
use std::mem;
use vm_handle::slot::BoxSlot;

/// A store, or none.
#[repr(C)]
#[derive(Drop)]
pub struct StoreHandle {
    at: *mut Opaque,
    alloc: Global,
    pub ghost value: { Option OpenStore } by { store_coded },
}

impl Model for StoreHandle {
    ghost also_owns = { λ h. store_owns h.alloc h.at h.value };
}

impl StoreHandle {
    fn of_slot(slot: BoxSlot<OpenStore>) -> StoreHandle
        ensures { result.value ≡ slot.value }
    {
        let BoxSlot { at, alloc } = slot;
        StoreHandle {
            at: at as *mut Opaque,
            alloc,
        }
    }

    fn into_slot(self) -> BoxSlot<OpenStore>
        ensures { result.value ≡ self.value }
    {
        let StoreHandle { at, alloc } = self;
        BoxSlot {
            at: at as *mut OpenStore,
            alloc,
        }
    }

    /// Takes the store out.
    pub fn take(&mut self, alloc: Global) -> Option<Box<OpenStore, Global>>
        ensures none { self.new.value ≡ None }
        ensures taken { MatchOption result (self.old.value ≡ None) (λ held. self.old.value ≡ Some held.value) }
    {
        let old = mem::replace(self, StoreHandle::of_slot(BoxSlot::empty(alloc)));
        old.into_slot().into_box()
    }

    /// Puts a store where there is none.
    pub fn put(&mut self, held: Box<OpenStore, Global>)
        requires { self.old.value ≡ None }
        ensures { self.new.value ≡ Some held.value }
    {
        *self = StoreHandle::of_slot(BoxSlot::of(held));
    }
}
