//! How parts and payments ended.

ghost use Rattle.std.specs.Prelude.{◌≡◌};
ghost use Rattle.lgm_payer_state.specs.Payments.{stage_bytes, stage_number, failure_bytes, ending_bytes};
ghost use Rattle.lgm_payer_state.specs.reading.PaymentsReading.{stage_at, failure_at, ending_at};

use crate::fields::{flag, number8, number16, number64, write_flag, write8, write16, write64};
use crate::state_fault::StateFault;
use crate::stored::Stored;
use lgm_payer::{Ending, Failure, Stage};
use std::alloc::{AllocError, Global};

fn stage_number(stage: Stage) -> u8
    ensures { result ≡ stage_number stage }
{
    match stage {
        Stage::Open => 0,
        Stage::Abandoned => 1,
        Stage::Paid => 2,
    }
}

impl Stored for Stage {
    ghost bytes_of = { stage_bytes };

    ghost read_at = { stage_at };

    #[tactic(auto, unfolding(crate::specs::Payments::stage_bytes, crate::specs::reading::PaymentsReading::stage_at))]
    fn write(&self, out: &mut Vec<u8>) -> Result<(), AllocError> {
        write8(stage_number(*self), out)?;
        Ok(())
    }

    #[tactic(auto, unfolding(crate::specs::Payments::stage_bytes, crate::specs::reading::PaymentsReading::stage_at))]
    fn read(_alloc: Global, bytes: &[u8]) -> Result<(Stage, &[u8]), StateFault> {
        let (number, rest) = number8(bytes)?;
        match number {
            0 => Ok((Stage::Open, rest)),
            1 => Ok((Stage::Abandoned, rest)),
            2 => Ok((Stage::Paid, rest)),
            _ => Err(StateFault::Damaged),
        }
    }
}

impl Stored for Failure {
    ghost bytes_of = { failure_bytes };

    ghost read_at = { failure_at };

    #[tactic(auto, unfolding(crate::specs::Payments::failure_bytes, crate::specs::reading::PaymentsReading::failure_at))]
    fn write(&self, out: &mut Vec<u8>) -> Result<(), AllocError> {
        write64(self.place as u64, out)?;
        write16(self.code, out)?;
        write_flag(self.is_renewed, out)?;
        Ok(())
    }

    #[tactic(auto, unfolding(crate::specs::Payments::failure_bytes, crate::specs::reading::PaymentsReading::failure_at))]
    fn read(_alloc: Global, bytes: &[u8]) -> Result<(Failure, &[u8]), StateFault> {
        let (place, rest) = number64(bytes)?;
        let (code, rest) = number16(rest)?;
        let (is_renewed, rest) = flag(rest)?;
        let failure = Failure {
            place: place as usize,
            code,
            is_renewed,
        };
        Ok((failure, rest))
    }
}

impl Stored for Option<Ending> {
    ghost bytes_of = { ending_bytes };

    ghost read_at = { ending_at };

    #[tactic(auto, unfolding(crate::specs::Payments::ending_bytes, crate::specs::reading::PaymentsReading::ending_at))]
    fn write(&self, out: &mut Vec<u8>) -> Result<(), AllocError> {
        match self {
            None => write8(0, out)?,
            Some(Ending::Unreadable) => write8(1, out)?,
            Some(Ending::Failed(failure)) => {
                write8(2, out)?;
                failure.write(out)?;
            }
        }
        Ok(())
    }

    #[tactic(auto, unfolding(crate::specs::Payments::ending_bytes, crate::specs::reading::PaymentsReading::ending_at))]
    fn read(alloc: Global, bytes: &[u8]) -> Result<(Option<Ending>, &[u8]), StateFault> {
        let (number, rest) = number8(bytes)?;
        match number {
            0 => Ok((None, rest)),
            1 => Ok((Some(Ending::Unreadable), rest)),
            2 => {
                let (failure, rest) = Failure::read(alloc, rest)?;
                Ok((Some(Ending::Failed(failure)), rest))
            }
            _ => Err(StateFault::Damaged),
        }
    }
}
