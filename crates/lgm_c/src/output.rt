//! Writing answers to the caller's buffers.

ghost use Rattle.std.specs.Prelude.{◌≡◌, ◌≤◌, length, map};
ghost use Rattle.std.specs.Fn.{FnReturnsAt};
ghost use Rattle.lgm_c.specs.Status.{status_of};
ghost use Rattle.lgm_c.specs.Writing.{in_front, IsWritten, buffer};

use crate::fault::Fault;

/// Copies items to the front of a buffer that has room for them.
pub(crate) fn copy_in_front<T: Copy>(items: &[T], room: &mut [T])
    requires { length items.now ≤ length room.old }
    ensures { room.new ≡ in_front items.now room.old }
{
    let n = items.len();
    room[..n].copy_from_slice(items);
}

/// Writes what each item gives to the front of a buffer that has room for all.
pub(crate) fn map_in_front<T, U: Copy, F: Fn(&T) -> U>(items: &[T], room: &mut [U], give: F)
    requires room { length items.now ≤ length room.old }
    requires callable { F.IsAlwaysCallable give }
    ensures { (f : T → U) → ((x : T) (y : U) → FnReturnsAt F.Fn give x y → y ≡ f x)
        → room.new ≡ in_front (map f items.now) room.old }
{
    for place in 0..items.len() {
        room[place] = give(&items[place]);
    }
}

/// Writes bytes to the front of the buffer if it has room for them, and their length in any case.
pub(crate) fn write_bytes(bytes: &[u8], room: &mut [u8], needed: &mut usize) -> Result<(), Fault>
    ensures { IsWritten bytes.now (status_of result)
        (buffer room.old needed.old) (buffer room.new needed.new) }
{
    *needed = bytes.len();
    if room.len() < bytes.len() {
        return Err(Fault::Room);
    }
    copy_in_front(bytes, room);
    Ok(())
}
