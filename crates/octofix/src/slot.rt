//! A box of a map, or none, in the form that C holds: one pointer.
ghost use Rattle.std.specs.Prelude.{◌≡◌, Option, Some, None, IsSome};
ghost use Rattle.std.specs.Borrow.{sem};
ghost use Rattle.oct_map.specs.declared.map.OccMap.{OccMap};
ghost use Rattle.octofix.specs.Owned.{slot_coded, slot_owns};

use crate::parts::Parts;
use oct_map::OccMap;
use std::alloc::Global;
use std::marker::Model;

/// A map on the heap, or none. C sees one pointer. It can't be dropped, so that no map is lost.
#[repr(C)]
pub struct Slot {
    at: *mut u8,
    alloc: Global,
    pub ghost map: { Option OccMap } by { slot_coded },
}

impl Model for Slot {
    ghost also_owns = { λ s. slot_owns s.alloc s.at s.map };
}

impl Slot {
    ghost use Rattle.octofix.specs.Lends.{slot_lends};

    /// None.
    pub fn empty(alloc: Global) -> Slot
        ensures { result.map ≡ None }
    {
        Slot {
            at: std::ptr::null_mut(),
            alloc,
        }
    }

    /// Ends a slot that has none.
    pub fn end(self)
        requires { self.map ≡ None }
    {
        let Slot { at: _, alloc: _ } = self;
    }

    /// Takes the parts over.
    pub fn of_parts(parts: Parts<OccMap, Global>) -> Slot
        ensures { result.map ≡ Some parts.value }
    {
        let Parts { ptr, alloc } = parts;
        Slot {
            at: ptr as *mut u8,
            alloc,
        }
    }

    /// The map, to be changed.
    pub fn get_mut(&mut self) -> &mut OccMap
        requires { IsSome self.old.map }
        ensures* writes_back { sem 𝓛 (slot_lends self.entry result) }
        ensures map { self.old.map ≡ Some result.now }
    {
        unsafe { &mut *(self.at as *mut OccMap) }
    }

    /// Gives the parts back.
    pub fn into_parts(self) -> Parts<OccMap, Global>
        requires { IsSome self.map }
        ensures { self.map ≡ Some result.value }
    {
        let Slot { at, alloc } = self;
        Parts {
            ptr: at as *mut OccMap,
            alloc,
        }
    }
}
