//! Invoices and bounds.

ghost use Rattle.lgm_payer_state.specs.Payments.{invoice_bytes, bounds_bytes};
ghost use Rattle.lgm_payer_state.specs.reading.PaymentsReading.{invoice_at, bounds_at};

use crate::fields::{fixed, flag, number16, number64, write_fixed, write_flag, write16, write64};
use crate::state_fault::StateFault;
use crate::stored::Stored;
use lgm_gossip::Point;
use lgm_payer::{Bounds, Invoice};
use std::alloc::{AllocError, Global};

impl Stored for Invoice {
    ghost bytes_of = { invoice_bytes };

    ghost read_at = { invoice_at };

    #[tactic(auto, unfolding(crate::specs::Payments::invoice_bytes, crate::specs::reading::PaymentsReading::invoice_at))]
    fn write(&self, out: &mut Vec<u8>) -> Result<(), AllocError> {
        self.payee.write(out)?;
        write64(self.amount, out)?;
        write_fixed(&self.secret, out)?;
        write16(self.final_delta, out)?;
        write_flag(self.basic_mpp, out)?;
        Ok(())
    }

    #[tactic(auto, unfolding(crate::specs::Payments::invoice_bytes, crate::specs::reading::PaymentsReading::invoice_at))]
    fn read(alloc: Global, bytes: &[u8]) -> Result<(Invoice, &[u8]), StateFault> {
        let (payee, rest) = Point::read(alloc, bytes)?;
        let (amount, rest) = number64(rest)?;
        let (secret, rest) = fixed(rest)?;
        let (final_delta, rest) = number16(rest)?;
        let (basic_mpp, rest) = flag(rest)?;
        let invoice = Invoice {
            payee,
            amount,
            secret,
            final_delta,
            basic_mpp,
        };
        Ok((invoice, rest))
    }
}

impl Stored for Bounds {
    ghost bytes_of = { bounds_bytes };

    ghost read_at = { bounds_at };

    #[tactic(auto, unfolding(crate::specs::Payments::bounds_bytes, crate::specs::reading::PaymentsReading::bounds_at))]
    fn write(&self, out: &mut Vec<u8>) -> Result<(), AllocError> {
        write64(self.most_fee, out)?;
        write64(self.most_tries as u64, out)?;
        write64(self.most_parts as u64, out)?;
        write64(self.least_part, out)?;
        write16(self.most_blocks, out)?;
        Ok(())
    }

    #[tactic(auto, unfolding(crate::specs::Payments::bounds_bytes, crate::specs::reading::PaymentsReading::bounds_at))]
    fn read(_alloc: Global, bytes: &[u8]) -> Result<(Bounds, &[u8]), StateFault> {
        let (most_fee, rest) = number64(bytes)?;
        let (most_tries, rest) = number64(rest)?;
        let (most_parts, rest) = number64(rest)?;
        let (least_part, rest) = number64(rest)?;
        let (most_blocks, rest) = number16(rest)?;
        let bounds = Bounds {
            most_fee,
            most_tries: most_tries as usize,
            most_parts: most_parts as usize,
            least_part,
            most_blocks,
        };
        Ok((bounds, rest))
    }
}
