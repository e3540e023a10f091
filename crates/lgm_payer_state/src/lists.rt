//! Lists.

ghost use Rattle.std.specs.Prelude.{◌≡◌, ◌++◌, ◌∷◌, [], length, IfOk, OnOk};
ghost use Rattle.std.specs.List.{flat_map};
ghost use Rattle.lgm_wire.specs.reading.Reading.{Gives};
ghost use Rattle.lgm_payer_state.specs.Written.{IsWritten, list_bytes};
ghost use Rattle.lgm_payer_state.specs.reading.Reading.{times_at, list_at};

use crate::fields::{number64, write64};
use crate::state_fault::StateFault;
use crate::stored::Stored;
use std::alloc::{AllocError, Global};

/// Writes how many there are, and then each.
pub(crate) fn write_all<T: Stored>(items: &[T], out: &mut Vec<u8>) -> Result<(), AllocError>
    ensures { OnOk result
        (IsWritten (list_bytes T.bytes_of) (list_at T.read_at) items.now out.old.items out.new.items) }
{
    write64(items.len() as u64, out)?;
    for item in items {
        item.write(out)?;
    }
    Ok(())
}

pub(crate) fn push<T: Drop>(items: &mut Vec<T>, item: T) -> Result<(), AllocError>
    ensures { OnOk result (items.new.items ≡ items.old.items ++ item ∷ []) }
{
    items.push(item)?;
    Ok(())
}

/// So many items, and the bytes behind them. A count beyond what the bytes have takes no memory for more than they have.
fn times<T: Stored>(alloc: Global, count: u64, bytes: &[u8]) -> Result<(Vec<T>, &[u8]), StateFault>
    ensures given { Gives StateFault.NoMemory (λ x. (x.0.items, x.1.now)) result (times_at T.read_at count bytes.now) }
    ensures exact { IfOk result (λ x. bytes.now ≡ flat_map T.bytes_of x.0.items ++ x.1.now) }
    ensures many { IfOk result (λ x. length x.0.items ≡ count) }
{
    let mut items = Vec::new(alloc);
    let mut rest = bytes;
    for _ in 0..count {
        let (item, after) = T::read(alloc, rest)?;
        push(&mut items, item)?;
        rest = after;
    }
    Ok((items, rest))
}

/// The items behind their number, and the bytes behind them.
#[tactic(auto, unfolding(crate::specs::Written::list_bytes, crate::specs::reading::Reading::list_at))]
pub(crate) fn read_all<T: Stored>(
    alloc: Global,
    bytes: &[u8],
) -> Result<(Vec<T>, &[u8]), StateFault>
    ensures given { Gives StateFault.NoMemory (λ x. (x.0.items, x.1.now)) result (list_at T.read_at bytes.now) }
    ensures exact { IfOk result (λ x. bytes.now ≡ list_bytes T.bytes_of x.0.items ++ x.1.now) }
{
    let (count, rest) = number64(bytes)?;
    times(alloc, count, rest)
}
