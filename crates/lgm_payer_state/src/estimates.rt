//! What was learnt of edges.

ghost use Rattle.std.specs.Prelude.{◌≡◌, ◌++◌, IfOk, OnOk};
ghost use Rattle.lgm_wire.specs.reading.Reading.{Gives};
ghost use Rattle.lgm_payer_state.specs.Written.{IsWritten};
ghost use Rattle.lgm_payer_state.specs.Estimates.{entry_bytes, learnt_bytes};
ghost use Rattle.lgm_payer_state.specs.reading.EstimatesReading.{entry_at, estimates_of, learnt_at};

use crate::fields::{number64, write64};
use crate::lists::{push, read_all, write_all};
use crate::state_fault::StateFault;
use crate::stored::Stored;
use lgm_gossip::{Point, Scid};
use lgm_graph::{EdgeKey, Estimate, Estimates};
use std::alloc::{AllocError, Global};

impl Stored for (EdgeKey, Estimate) {
    ghost bytes_of = { entry_bytes };

    ghost read_at = { entry_at };

    #[tactic(auto, unfolding(crate::specs::Estimates::entry_bytes, crate::specs::reading::EstimatesReading::entry_at))]
    fn write(&self, out: &mut Vec<u8>) -> Result<(), AllocError> {
        write64(self.0.scid.to_u64(), out)?;
        self.0.from.write(out)?;
        write64(self.1.least, out)?;
        write64(self.1.most, out)?;
        write64(self.1.penalty, out)?;
        Ok(())
    }

    #[tactic(auto, unfolding(crate::specs::Estimates::entry_bytes, crate::specs::reading::EstimatesReading::entry_at))]
    fn read(alloc: Global, bytes: &[u8]) -> Result<((EdgeKey, Estimate), &[u8]), StateFault> {
        let (scid, rest) = number64(bytes)?;
        let (from, rest) = Point::read(alloc, rest)?;
        let (least, rest) = number64(rest)?;
        let (most, rest) = number64(rest)?;
        let (penalty, rest) = number64(rest)?;
        let key = EdgeKey {
            scid: Scid::from_u64(scid),
            from,
        };
        let estimate = Estimate {
            least,
            most,
            penalty,
        };
        Ok(((key, estimate), rest))
    }
}

/// The entries of estimates, in their order.
fn entries_of(alloc: Global, learnt: &Estimates) -> Result<Vec<(EdgeKey, Estimate)>, AllocError>
    ensures { IfOk result (λ entries. entries.items ≡ learnt.now) }
{
    let mut entries = Vec::new(alloc);
    for place in 0..learnt.len() {
        let Some(entry) = learnt.at(place) else {
            unreachable!();
        };
        push(&mut entries, entry)?;
    }
    Ok(entries)
}

/// The estimates with these entries, none of which is of the edge of an earlier one.
fn estimates_of(alloc: Global, entries: &[(EdgeKey, Estimate)]) -> Result<Estimates, StateFault>
    ensures { Gives StateFault.NoMemory (λ learnt. learnt) result (estimates_of entries.now) }
{
    let mut learnt = Estimates::new(alloc);
    for entry in entries {
        let count = learnt.len();
        learnt.set(entry.0.scid, &entry.0.from, entry.1)?;
        if learnt.len() == count {
            return Err(StateFault::Damaged);
        }
    }
    Ok(learnt)
}

#[tactic(auto, unfolding(crate::specs::Estimates::learnt_bytes, crate::specs::reading::EstimatesReading::learnt_at))]
pub(crate) fn write_learnt(
    alloc: Global,
    learnt: &Estimates,
    out: &mut Vec<u8>,
) -> Result<(), AllocError>
    ensures { OnOk result (IsWritten learnt_bytes learnt_at learnt.now out.old.items out.new.items) }
{
    learnt.are_of_distinct_edges();
    let entries = entries_of(alloc, learnt)?;
    write_all(&entries, out)?;
    Ok(())
}

/// Estimates, and the bytes behind them.
#[tactic(auto, unfolding(crate::specs::Estimates::learnt_bytes, crate::specs::reading::EstimatesReading::learnt_at))]
pub(crate) fn read_learnt(alloc: Global, bytes: &[u8]) -> Result<(Estimates, &[u8]), StateFault>
    ensures given { Gives StateFault.NoMemory (λ x. (x.0, x.1.now)) result (learnt_at bytes.now) }
    ensures exact { IfOk result (λ x. bytes.now ≡ learnt_bytes x.0 ++ x.1.now) }
{
    let (entries, rest) = read_all::<(EdgeKey, Estimate)>(alloc, bytes)?;
    let learnt = estimates_of(alloc, &entries)?;
    Ok((learnt, rest))
}
