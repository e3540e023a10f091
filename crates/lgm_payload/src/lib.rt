//! The onion payloads of a payment's hops (BOLT 4).
//!
//! [`build`] makes the payloads of a route, one per hop, and [`build_for`] those of one part of a
//! payment, with payment metadata and custom records; [`read`] parses one, or reports its first
//! fault. Contracts say which bytes encode which payload.
//!
//! Where an error is `AllocError`, memory ran out.
#![tactic(auto)]

mod arrival;
mod arrival_fault;
mod builder;
mod custom_record;
mod fault;
mod hop_payload;
mod payloads;
mod reader;
mod writer;

pub use arrival::Arrival;
pub use arrival_fault::ArrivalFault;
pub use builder::{build, build_for, built_for_is_read, built_is_read};
pub use custom_record::{CustomRecord, FIRST_CUSTOM};
pub use fault::PayloadFault;
pub use hop_payload::{HopPayload, Payment};
pub use payloads::Payloads;
pub use reader::{one_payload, read};
