//! A box as C keeps it.

ghost use Rattle.std.specs.Prelude.{◌≡◌, Option, Some, None, IsSome};
ghost use Rattle.gw_c.specs.declared.inner.Inner.{Inner};
ghost use Rattle.gw_c.specs.Boxes.{slot_owns};

use crate::inner::Inner;
use gw_loose::Loose;
use std::alloc::Global;
use std::marker::Model;

/// The place of a box, or nothing.
#[repr(C)]
pub struct Slot {
    at: *mut u8,
    alloc: Global,
    pub ghost value: { Option Inner },
}

impl Model for Slot {
    ghost also_owns = { λ s. slot_owns s.alloc s.at s.value };
}

impl Slot {
    /// Nothing.
    pub fn empty(alloc: Global) -> Slot
        ensures { result.value ≡ None }
    {
        Slot {
            at: std::ptr::null_mut(),
            alloc,
        }
    }

    /// Lets nothing go.
    pub fn end(self)
        requires { self.value ≡ None }
    {
        let Slot {
            at: _at,
            alloc: _alloc,
        } = self;
    }

    fn from_loose(loose: Loose<Inner, Global>) -> Slot
        ensures { result.value ≡ Some loose.value }
    {
        let Loose { at, alloc } = loose;
        Slot {
            at: at as *mut u8,
            alloc,
        }
    }

    fn into_loose(self) -> Loose<Inner, Global>
        requires { IsSome self.value }
        ensures { self.value ≡ Some result.value }
    {
        let Slot { at, alloc } = self;
        Loose {
            at: at as *mut Inner,
            alloc,
        }
    }

    /// The place of a box.
    pub fn of(value: Box<Inner>) -> Slot
        ensures { result.value ≡ Some value.value }
    {
        Slot::from_loose(Loose::of(value))
    }

    /// The box again.
    pub fn into_box(self) -> Box<Inner>
        requires { IsSome self.value }
        ensures { self.value ≡ Some result.value }
    {
        self.into_loose().into_box()
    }
}
