//! A handle of estimates, as C stores it.

ghost use Rattle.std.specs.Prelude.{◌≡◌, Some, None, Option, is_some, true};
ghost use Rattle.lgm_graph.specs.Estimates.{Entries};

use crate::handle::Handle;
use crate::raw_box::RawBox;
use lgm_graph::Estimates;
use std::alloc::Global;
use std::marker::Model;

/// A handle: what a payer has learnt of edges, or none. All zeros are a closed handle.
#[repr(C)]
#[derive(Drop)]
pub struct LgmEstimates {
    is_open: bool,
    at: *mut u8,
    ghost value: { Option Entries },
    ghost sound: { is_open ≡ is_some value },
}

impl Model for LgmEstimates {
    ghost use Rattle.lgm_c.specs.inner.Handle.{owns_estimates};

    ghost also_owns = { λ h. owns_estimates h.at h.value };
}

impl Handle for LgmEstimates {
    type Held = Estimates;

    ghost value = { λ h. h.value };

    fn closed() -> LgmEstimates
        ensures { result.value ≡ None }
    {
        LgmEstimates {
            is_open: false,
            at: std::ptr::null_mut(),
        }
    }

    fn of(loose: RawBox<Estimates, Global>) -> LgmEstimates
        ensures { result.value ≡ Some loose.value }
    {
        let RawBox { at, alloc: _ } = loose;
        LgmEstimates {
            is_open: true,
            at: at as *mut u8,
        }
    }

    fn into_loose(self, alloc: Global) -> RawBox<Estimates, Global>
        requires { is_some self.value ≡ true }
        ensures { Some result.value ≡ self.value }
    {
        let LgmEstimates { is_open: _, at } = self;
        RawBox {
            at: at as *mut Estimates,
            alloc,
        }
    }

    fn is_open(&mut self) -> bool
        ensures same { self.new.value ≡ self.old.value }
        ensures is_open { result ≡ is_some self.old.value }
    {
        self.is_open
    }
}
