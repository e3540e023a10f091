//! What to send next for an invoice, in one part or several, by what became of what was sent.
//!
//! A [`Payer`] has its payments, and what it has learnt of edges. A [`Payment`] is an invoice, what its payment may take, and the parts that were ever sent for it, each with how it ended.
//!
//! Where a public call's error is `AllocError`, memory ran out, and nothing has changed.
#![tactic(auto)]

mod bounds;
mod exclusions;
mod failure;
mod invoice;
mod learning;
mod offer;
mod overlays;
mod part;
mod payer;
mod payer_fault;
mod payment;
mod preferring;
mod sight;
mod stage;
mod under_way;
mod unfound;
mod unpaid;

pub use bounds::Bounds;
pub use failure::{Ending, Failure, FailureKind};
pub use invoice::Invoice;
pub use offer::Sending;
pub use part::Part;
pub use payer::Payer;
pub use payer_fault::PayerFault;
pub use payment::Payment;
pub use preferring::usual_preferences;
pub use sight::Sight;
pub use stage::Stage;
pub use unfound::Unfound;
pub use unpaid::Unpaid;
