//! The writer's side: gossip is validated, admitted to the writer's own map, and appended to be published next.

use lgm_check::{Evidence, Refusal};
use lgm_publish::Pen;
use lgm_store::{CheckedMessage, Map, Op, Seed};
use lgm_test_gossip::CHAIN;
use std::alloc::{AllocError, Global};

/// The state of the writer.
#[derive(Drop)]
pub struct Taker {
    /// In a box: a proof takes long for a function that owns a map itself.
    map: Box<Map>,
    /// An operation that was applied to the map, and returned by the pen. It is appended before anything else.
    back: Option<Op>,
}

impl Taker {
    /// No gossip was taken yet. Points of the map will be hashed with the seed.
    pub fn new(alloc: Global, seed: Seed) -> Result<Taker, AllocError> {
        Ok(Taker {
            map: Box::new(alloc, Map::with_seed(alloc, seed)?)?,
            back: None,
        })
    }

    /// Appends the operation that was returned, if any.
    fn append(&mut self, pen: &mut Pen) -> Result<(), AllocError> {
        let Some(op) = self.back.take() else {
            return Ok(());
        };
        match pen.append(op) {
            Ok(()) => Ok(()),
            Err(fault) => {
                self.back = Some(fault.op);
                Err(AllocError)
            }
        }
    }

    /// Takes a message. At a refusal the map is unchanged, and the next message can be taken. `NoMemory` says nothing
    /// about the message.
    pub fn take(
        &mut self,
        alloc: Global,
        pen: &mut Pen,
        bytes: &[u8],
        evidence: &Evidence,
    ) -> Result<(), Refusal> {
        self.append(pen)?;
        let message = CheckedMessage::precheck(alloc, &CHAIN, bytes, evidence)?;
        self.back = Some(self.map.offer_checked(alloc, message)?);
        self.append(pen)?;
        Ok(())
    }
}
