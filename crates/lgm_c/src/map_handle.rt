//! A handle of a map, as C stores it.

ghost use Rattle.std.specs.Prelude.{◌≡◌, Some, None, Option, is_some, true};
ghost use Rattle.lgm_c.specs.MapState.{MapState};

use crate::chain_map::ChainMap;
use crate::handle::Handle;
use crate::raw_box::RawBox;
use std::alloc::Global;
use std::marker::Model;

/// A handle: a map, or none. All zeros are a closed handle.
#[repr(C)]
#[derive(Drop)]
pub struct LgmMap {
    is_open: bool,
    at: *mut u8,
    ghost value: { Option MapState },
    ghost sound: { is_open ≡ is_some value },
}

impl Model for LgmMap {
    ghost use Rattle.lgm_c.specs.inner.Handle.{owns_map};

    ghost also_owns = { λ h. owns_map h.at h.value };
}

impl Handle for LgmMap {
    type Held = ChainMap;

    ghost value = { λ h. h.value };

    fn closed() -> LgmMap
        ensures { result.value ≡ None }
    {
        LgmMap {
            is_open: false,
            at: std::ptr::null_mut(),
        }
    }

    fn of(loose: RawBox<ChainMap, Global>) -> LgmMap
        ensures { result.value ≡ Some loose.value }
    {
        let RawBox { at, alloc: _ } = loose;
        LgmMap {
            is_open: true,
            at: at as *mut u8,
        }
    }

    fn into_loose(self, alloc: Global) -> RawBox<ChainMap, Global>
        requires { is_some self.value ≡ true }
        ensures { Some result.value ≡ self.value }
    {
        let LgmMap { is_open: _, at } = self;
        RawBox {
            at: at as *mut ChainMap,
            alloc,
        }
    }

    fn is_open(&mut self) -> bool
        ensures same { self.new.value ≡ self.old.value }
        ensures is_open { result ≡ is_some self.old.value }
    {
        self.is_open
    }
}
