//! Handles of C's.

ghost use Rattle.std.specs.Prelude.{◌≡◌, Option, Some, None, is_some, MatchOption};

use crate::inner::Inner;
use crate::slot::Slot;
use std::alloc::Global;
use std::mem::replace;

/// A handle, which C keeps and may move. All octets 0: it holds nothing. No function can drop one.
#[repr(C)]
pub struct Handle {
    there: bool,
    pub slot: Slot,
    pub ghost tied: { is_some slot.value ≡ there },
}

impl Handle {
    /// Takes out what the handle holds.
    pub fn take(&mut self, alloc: Global) -> Option<Box<Inner>>
        ensures taken { MatchOption result (self.old.slot.value ≡ None) (λ held. self.old.slot.value ≡ Some held.value) }
        ensures empty { self.new.slot.value ≡ None }
    {
        let empty = Handle {
            there: false,
            slot: Slot::empty(alloc),
        };
        replace(self, empty).into_held()
    }

    /// Puts something into a handle. What it held is dropped.
    pub fn put(&mut self, value: Box<Inner>)
        ensures { self.new.slot.value ≡ Some value.value }
    {
        let full = Handle {
            there: true,
            slot: Slot::of(value),
        };
        drop(replace(self, full).into_held());
    }

    /// What the handle held.
    fn into_held(self) -> Option<Box<Inner>>
        ensures { MatchOption result (self.slot.value ≡ None) (λ held. self.slot.value ≡ Some held.value) }
    {
        let Handle { there, slot } = self;
        if there {
            Some(slot.into_box())
        } else {
            slot.end();
            None
        }
    }
}
