//! Payments.

ghost use Rattle.lgm_payer_state.specs.Payments.{payment_bytes};
ghost use Rattle.lgm_payer_state.specs.reading.PaymentsReading.{payment_at};

use crate::fields::{number64, write64};
use crate::lists::{read_all, write_all};
use crate::state_fault::StateFault;
use crate::stored::Stored;
use lgm_gossip::Point;
use lgm_payer::{Bounds, Invoice, Payment, Stage};
use lgm_payload::Arrival;
use std::alloc::{AllocError, Global};

impl Stored for Payment {
    ghost bytes_of = { payment_bytes };

    ghost read_at = { payment_at };

    #[tactic(auto, unfolding(crate::specs::Payments::payment_bytes, crate::specs::reading::PaymentsReading::payment_at))]
    fn write(&self, out: &mut Vec<u8>) -> Result<(), AllocError> {
        self.can_be_restored();
        write64(self.number(), out)?;
        self.payer().write(out)?;
        self.invoice().write(out)?;
        write_all(self.hints(), out)?;
        self.arrival().write(out)?;
        self.bounds().write(out)?;
        self.stage().write(out)?;
        write_all(self.parts(), out)?;
        Ok(())
    }

    #[tactic(auto, unfolding(crate::specs::Payments::payment_bytes, crate::specs::reading::PaymentsReading::payment_at))]
    fn read(alloc: Global, bytes: &[u8]) -> Result<(Payment, &[u8]), StateFault> {
        let (number, rest) = number64(bytes)?;
        let (payer, rest) = Point::read(alloc, rest)?;
        let (invoice, rest) = Invoice::read(alloc, rest)?;
        let (hints, rest) = read_all(alloc, rest)?;
        let (arrival, rest) = Arrival::read(alloc, rest)?;
        let (bounds, rest) = Bounds::read(alloc, rest)?;
        let (stage, rest) = Stage::read(alloc, rest)?;
        let (parts, rest) = read_all(alloc, rest)?;
        let restored = Payment::restored(
            number, payer, invoice, hints, arrival, bounds, stage, parts,
        );
        match restored {
            Some(payment) => Ok((payment, rest)),
            None => Err(StateFault::Damaged),
        }
    }
}
