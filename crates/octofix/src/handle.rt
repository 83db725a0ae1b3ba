//! What C holds: a map, or none.
ghost use Rattle.std.specs.Prelude.{◌≡◌, Some, None, IfOk, IfErr, IsSome, is_some};
ghost use Rattle.std.specs.Borrow.{sem};
ghost use Rattle.octofix.specs.declared.refusal.Refusal.TheVariants.{Closed};

use crate::parts::Parts;
use crate::refusal::Refusal;
use crate::slot::Slot;
use oct_map::OccMap;
use std::alloc::Global;
use std::marker::Model;

/// A map, or none. All zeros are none. It can't be dropped, so that a map goes only where a close
/// gives it back.
#[repr(C)]
pub struct Octofix {
    pub slot: Slot,
    is_open: bool,
}

impl Model for Octofix {
    ghost use Rattle.std.specs.Prelude.{◌≡◌, is_some};
    ghost use Rattle.octofix.specs.Handles.{Handle};

    ghost Value = { Handle };

    ghost view = { λ handle. record { slot = handle.slot; is_open = handle.is_open } };

    ghost inverse = { λ handle. record { slot = handle.slot; is_open = handle.is_open } };

    ghost invariant = { λ handle. handle.is_open ≡ is_some handle.slot.map };
}

impl Octofix {
    ghost use Rattle.octofix.specs.HandleLends.{handle_lends, open_with};

    /// The handle of a map.
    pub fn of(map: Box<OccMap>) -> Octofix
        ensures { result.slot.map ≡ Some map.value }
    {
        Octofix {
            slot: Slot::of_parts(Parts::of(map)),
            is_open: true,
        }
    }

    /// The handle of none.
    pub fn closed(alloc: Global) -> Octofix
        ensures { result.slot.map ≡ None }
    {
        Octofix {
            slot: Slot::empty(alloc),
            is_open: false,
        }
    }

    /// Ends a handle that has no map.
    pub fn end(self)
        requires { self.slot.map ≡ None }
    {
        let Octofix { slot, is_open: _ } = self;
        slot.end();
    }

    /// Whether it has a map.
    pub fn is_open(&self) -> bool
        ensures { result ≡ is_some self.now.slot.map }
    {
        self.is_open
    }

    /// The map of the handle, to be changed. Refuses exactly where it has none.
    pub fn map_mut(&mut self) -> Result<&mut OccMap, Refusal>
        ensures* writes_back { sem 𝓛 (handle_lends self.entry result) }
        ensures open { IfOk result (λ map. self.old.slot.map ≡ Some map.now) }
        ensures same { IfOk result (λ map. open_with self.old map.now ≡ self.old) }
        ensures closed { IfErr result (λ refusal. (refusal ≡ Closed) × (self.old.slot.map ≡ None)) }
    {
        if !self.is_open {
            return Err(Refusal::Closed);
        }
        Ok(self.slot.get_mut())
    }

    /// The map of the handle.
    pub fn into_map(self) -> Box<OccMap>
        requires { IsSome self.slot.map }
        ensures { self.slot.map ≡ Some result.value }
    {
        let Octofix { slot, is_open: _ } = self;
        slot.into_parts().into_box()
    }
}
