//! What handles share.

ghost use Rattle.std.specs.Prelude.{◌≡◌, Some, None, Option, is_some, true};
ghost use Rattle.std.specs.Option.{option_map};
ghost use Rattle.lgm_c.specs.Opening.{Opens};

use crate::fault::Fault;
use crate::raw_box::RawBox;
use std::alloc::Global;
use std::mem::replace;

/// A handle of 16 bytes, which C stores: a value in a box, or none. All zeros are a closed handle.
pub(crate) trait Handle: Drop {
    /// What an open one has. C may pass it to another thread with the handle.
    type Held: Send + Drop;

    ghost value: { Self → Option Self.Held };

    /// A closed handle.
    fn closed() -> Self
        ensures { value result ≡ None };

    /// An open handle of what is in a box.
    fn of(loose: RawBox<Self::Held, Global>) -> Self
        ensures { value result ≡ Some loose.value };

    /// The box of an open handle.
    fn into_loose(self, alloc: Global) -> RawBox<Self::Held, Global>
        requires { is_some (value self) ≡ true }
        ensures { Some result.value ≡ value self };

    /// Whether it is open.
    fn is_open(&mut self) -> bool
        ensures same { value self.new ≡ value self.old }
        ensures is_open { result ≡ is_some (value self.old) };

    /// Takes the value out, if there is one, and closes the handle.
    final fn take(&mut self, alloc: Global) -> Option<Box<Self::Held>>
        ensures left { value self.new ≡ None }
        ensures taken { option_map (λ held. held.value) result ≡ value self.old }
    {
        if !self.is_open() {
            return None;
        }
        Some(replace(self, Self::closed()).into_loose(alloc).into_box())
    }

    /// Puts a value into a closed handle.
    final fn put(&mut self, held: Box<Self::Held>)
        ensures { value self.new ≡ Some held.value }
    {
        *self = Self::of(RawBox::of(held));
    }

    /// Opens a closed handle with a value, and returns 0 or the number of out of memory.
    final fn fill(&mut self, alloc: Global, held: Self::Held) -> u32
        requires { value self.old ≡ None }
        ensures { Opens held result (value self.old) (value self.new) }
    {
        match Box::new(alloc, held) {
            Ok(held) => {
                self.put(held);
                0
            }
            Err(_) => Fault::NoMemory.number(),
        }
    }
}

/// The form of each call on what a handle has: takes it out, lets `$answer` look at it as `$held`, or change it, and puts
/// it back. Of a closed handle it is `$closed`, or the number of that fault.
macro_rules! with_held {
    ($alloc:ident, $handle:ident, |$held:ident| $answer:expr) => {
        with_held!($alloc, $handle, Fault::Closed.number(), |$held| $answer)
    };
    ($alloc:ident, $handle:ident, $closed:expr, |$held:ident| $answer:expr) => {
        match $handle.take($alloc) {
            Some(mut $held) => {
                let answer = $answer;
                $handle.put($held);
                answer
            }
            None => $closed,
        }
    };
}

pub(crate) use with_held;
