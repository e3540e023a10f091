//! What the payee gets beside the route.

ghost use Rattle.std.specs.Prelude.{◌≡◌, IfOk};
ghost use Rattle.lgm_payload.specs.Arrival.{arrival_for, custom_records, whole_arrival};

use crate::custom_record::CustomRecord;
use crate::hop_payload::{HopPayload, Payment};
use lgm_gossip::Bytes;
use lgm_graph::Hop;
use std::alloc::{AllocError, Global};
use std::marker::Model;

/// What the payload of the payee has beside the amount and the expiry (BOLT 4, "Payload Format").
#[derive(Debug, Drop)]
pub struct Arrival {
    secret: [u8; 32],
    total: u64,
    metadata: Option<Bytes>,
    records: Vec<CustomRecord>,
}

impl Model for Arrival {
    ghost use Rattle.lgm_payload.specs.Arrival.{ArrivalParts, custom_records};

    ghost Value = { ArrivalParts };

    ghost view = { λ a. record {
      secret = a.secret;
      total = a.total;
      metadata = a.metadata;
      records = custom_records a.records.items;
    } };
}

fn copied(alloc: Global, bytes: &Option<Bytes>) -> Result<Option<Bytes>, AllocError>
    ensures { IfOk result (λ copied. copied ≡ bytes.now) }
{
    match bytes {
        None => Ok(None),
        Some(bytes) => Ok(Some(bytes.copy(alloc)?)),
    }
}

impl Arrival {
    /// The payment secret, from the invoice; what the payee is to get by all parts of the payment together, in msat
    /// (`total_msat`); the bytes that it asked the payer to return (BOLT 11, field `m`; `payment_metadata`); and custom
    /// records, by ascending types. Nothing is checked of these.
    pub fn new(
        secret: &[u8; 32],
        total: u64,
        metadata: Option<Bytes>,
        records: Vec<CustomRecord>,
    ) -> Arrival
        ensures { result ≡ record {
          secret = secret.now;
          total = total;
          metadata = metadata;
          records = custom_records records.items;
        } }
    {
        Arrival {
            secret: *secret,
            total,
            metadata,
            records,
        }
    }

    /// That of a payment in one part, without metadata and custom records.
    pub(crate) fn whole(alloc: Global, secret: &[u8; 32], last: &Hop) -> Arrival
        ensures { result ≡ whole_arrival secret.now last.now }
    {
        Arrival::new(secret, last.amount, None, Vec::new(alloc))
    }

    /// The payload of the node at the end of the last hop, without custom records.
    pub(crate) fn payload(&self, alloc: Global, last: &Hop) -> Result<HopPayload, AllocError>
        ensures { IfOk result (λ payload. payload ≡ arrival_for self.now last.now) }
    {
        Ok(HopPayload {
            amount: last.amount,
            expiry: last.expiry,
            next: None,
            payment: Some(Payment {
                secret: self.secret,
                total: self.total,
            }),
            metadata: copied(alloc, &self.metadata)?,
        })
    }

    /// The payment secret.
    pub fn secret(&self) -> &[u8; 32]
        ensures { result.now ≡ self.now.secret }
    {
        &self.secret
    }

    /// What the payee is to get by all parts of the payment together, in msat.
    pub fn total(&self) -> u64
        ensures { result ≡ self.now.total }
    {
        self.total
    }

    /// The bytes that the payee asked the payer to return, if it did.
    pub fn metadata(&self) -> &Option<Bytes>
        ensures { result.now ≡ self.now.metadata }
    {
        &self.metadata
    }

    /// The custom records.
    pub fn records(&self) -> &[CustomRecord]
        ensures { custom_records result.now ≡ self.now.records }
    {
        &self.records
    }
}
