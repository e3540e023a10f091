//! Parts of payments.

ghost use Rattle.std.specs.Prelude.{◌≡◌};
ghost use Rattle.lgm_wire.specs.reading.Reading.{Sees};
ghost use Rattle.lgm_payer_state.specs.Payments.{part_bytes};
ghost use Rattle.lgm_payer_state.specs.reading.PaymentsReading.{route_of, part_at};

use crate::fields::{number32, number64, write32, write64};
use crate::lists::{read_all, write_all};
use crate::state_fault::StateFault;
use crate::stored::Stored;
use lgm_graph::{Hop, Route};
use lgm_payer::{Ending, Part};
use std::alloc::{AllocError, Global};

/// The route of hops, of which there are to be 1 to 20.
fn route_of(hops: Vec<Hop>) -> Result<Route, StateFault>
    ensures { Sees (λ route. route) result (route_of hops.items) }
{
    if hops.is_empty() || hops.len() > 20 {
        return Err(StateFault::Damaged);
    }
    Ok(Route::from_vec(hops))
}

impl Stored for Part {
    ghost bytes_of = { part_bytes };

    ghost read_at = { part_at };

    #[tactic(auto, unfolding(crate::specs::Payments::part_bytes, crate::specs::reading::PaymentsReading::part_at))]
    fn write(&self, out: &mut Vec<u8>) -> Result<(), AllocError> {
        write64(self.number, out)?;
        write_all(self.route.as_slice(), out)?;
        write64(self.amount, out)?;
        write64(self.fee, out)?;
        write32(self.blocks, out)?;
        self.ending.write(out)?;
        Ok(())
    }

    #[tactic(auto, unfolding(crate::specs::Payments::part_bytes, crate::specs::reading::PaymentsReading::part_at))]
    fn read(alloc: Global, bytes: &[u8]) -> Result<(Part, &[u8]), StateFault> {
        let (number, rest) = number64(bytes)?;
        let (hops, rest) = read_all::<Hop>(alloc, rest)?;
        let route = route_of(hops)?;
        let (amount, rest) = number64(rest)?;
        let (fee, rest) = number64(rest)?;
        let (blocks, rest) = number32(rest)?;
        let (ending, rest) = Option::<Ending>::read(alloc, rest)?;
        let part = Part {
            number,
            route,
            amount,
            fee,
            blocks,
            ending,
        };
        Ok((part, rest))
    }
}
