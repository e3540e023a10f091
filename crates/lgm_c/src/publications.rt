//! Publishing and sharing maps.

ghost use Rattle.std.specs.Prelude.{◌≡◌, is_some};
ghost use Rattle.lgm_c.specs.MapState.{published};
ghost use Rattle.lgm_c.specs.Opening.{Opens};
ghost use Rattle.lgm_c.specs.Published.{Publishes, SharesIf, Shares, version_of};

use crate::argument_fault::ArgumentFault;
use crate::chain_map::ChainMap;
use crate::fault::Fault;
use crate::handle::{Handle, with_held};
use crate::map_handle::LgmMap;
use std::alloc::Global;

/// Opens a closed handle with a map as it is now, for good. Whether it is open was seen before the map was taken out: a caller
/// may pass the map's own handle.
fn publish(alloc: Global, state: &mut ChainMap, is_open: bool, to: &mut LgmMap) -> u32
    requires { is_open ≡ is_some to.old.value }
    ensures same { state.new ≡ state.old }
    ensures published { Opens (published state.old) result to.old.value to.new.value }
{
    if is_open {
        return Fault::Open.number();
    }
    match state.publish(alloc) {
        Ok(state) => to.fill(alloc, state),
        Err(_) => Fault::NoMemory.number(),
    }
}

/// Opens a closed handle with the map as it is now, for good. A published map has one more owner then.
#[unsafe(no_mangle)]
pub extern "C" fn lgm_publish(alloc: Global, map: &mut LgmMap, published: &mut LgmMap) -> u32
    ensures same { map.new.value ≡ map.old.value }
    ensures published { Publishes map.old.value result
        published.old.value published.new.value }
{
    let is_open = published.is_open();
    with_held!(
        alloc,
        map,
        |state| publish(alloc, &mut state, is_open, published)
    )
}

/// Opens a closed handle with a map, if that is a published one.
fn share(alloc: Global, state: &mut ChainMap, is_open: bool, to: &mut LgmMap) -> u32
    requires { is_open ≡ is_some to.old.value }
    ensures same { state.new ≡ state.old }
    ensures shared { SharesIf state.old.is_published state.old result to.old.value to.new.value }
{
    if !state.is_published() {
        return Fault::Argument(ArgumentFault::Published).number();
    }
    publish(alloc, state, is_open, to)
}

/// Opens a closed handle with what a published map has, which costs no copy: one more owner, for another thread.
#[unsafe(no_mangle)]
pub extern "C" fn lgm_share(alloc: Global, published: &mut LgmMap, other: &mut LgmMap) -> u32
    ensures same { published.new.value ≡ published.old.value }
    ensures shared { Shares published.old.value result
        other.old.value other.new.value }
{
    let is_open = other.is_open();
    with_held!(
        alloc,
        published,
        |state| share(alloc, &mut state, is_open, other)
    )
}

/// How many messages and closes the map had accepted, when it was published or so far: 0 of a closed handle.
#[unsafe(no_mangle)]
pub extern "C" fn lgm_version_of(alloc: Global, map: &mut LgmMap) -> u64
    ensures same { map.new.value ≡ map.old.value }
    ensures version { result ≡ version_of map.old.value }
{
    with_held!(alloc, map, 0, |state| state.version())
}
