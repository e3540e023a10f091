//! A handle of a payer, as C stores it.

ghost use Rattle.std.specs.Prelude.{◌≡◌, Some, None, Option, is_some, true};
ghost use Rattle.lgm_payer.specs.Payers.{PayerState};

use crate::handle::Handle;
use crate::raw_box::RawBox;
use lgm_payer::Payer;
use std::alloc::Global;
use std::marker::Model;

/// A handle: a payer, or none. All zeros are a closed handle.
#[repr(C)]
#[derive(Drop)]
pub struct LgmPayer {
    is_open: bool,
    at: *mut u8,
    ghost value: { Option PayerState },
    ghost sound: { is_open ≡ is_some value },
}

impl Model for LgmPayer {
    ghost use Rattle.lgm_c.specs.inner.Handle.{owns_payer};

    ghost also_owns = { λ h. owns_payer h.at h.value };
}

impl Handle for LgmPayer {
    type Held = Payer;

    ghost value = { λ h. h.value };

    fn closed() -> LgmPayer
        ensures { result.value ≡ None }
    {
        LgmPayer {
            is_open: false,
            at: std::ptr::null_mut(),
        }
    }

    fn of(loose: RawBox<Payer, Global>) -> LgmPayer
        ensures { result.value ≡ Some loose.value }
    {
        let RawBox { at, alloc: _ } = loose;
        LgmPayer {
            is_open: true,
            at: at as *mut u8,
        }
    }

    fn into_loose(self, alloc: Global) -> RawBox<Payer, Global>
        requires { is_some self.value ≡ true }
        ensures { Some result.value ≡ self.value }
    {
        let LgmPayer { is_open: _, at } = self;
        RawBox {
            at: at as *mut Payer,
            alloc,
        }
    }

    fn is_open(&mut self) -> bool
        ensures same { self.new.value ≡ self.old.value }
        ensures is_open { result ≡ is_some self.old.value }
    {
        self.is_open
    }
}
