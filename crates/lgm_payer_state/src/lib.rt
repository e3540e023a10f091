//! The bytes of a payer's state, so that a payer that stops with parts under way goes on with the same ones.
//!
//! [`write`] writes them, and [`read`] returns the payer, or refuses bytes that were cut or changed, or are of another
//! version, as a whole. [`written_is_read`] states that what is written is read as the same state.
//!
//! Where an error is `AllocError`, memory ran out.
//!
//! [`write_estimates`] and [`read_estimates`] do the same of what was learnt of edges alone. Its bytes are the text `lgm est` with
//! a line feed; the version of the format, 1, in four bytes; the list of estimates; and the checksum.
//!
//! Those of a payer are the text `lgm pay` with a line feed; the version of the format, 1, in four bytes; the payer; and the
//! checksum of all that as `lgm_save` has it, in sixteen. Numbers are big-endian. A list is its length, in eight bytes, and
//! then its items; so are metadata and the value of a custom record. A flag, a stage and the way in which a part ended begin
//! with one byte.
//!
//! | what | its fields, with their bytes |
//! |---|---|
//! | the payer | its point, 33; how many payments it has begun, parts it has sent, and parts its channels have to reckon, 8 each; the list of payments; the list of estimates |
//! | a payment | its number, 8; its payer, 33; the invoice; the list of hints; what the payee gets beside a route; the bounds; the stage, 1 (0 open, 1 abandoned, 2 paid); the list of parts |
//! | an invoice | the payee, 33; the amount, 8; the secret, 32; the final delta, 2; whether the payee takes several parts, 1 |
//! | a hint | its id, 8; the nodes from and to which it leads, 33 each; base and proportional fee, 4 each; the delta, 2; minimum and maximum, 8 each |
//! | what the payee gets | the secret, 32; the total, 8; whether there are metadata, 1, and these; the list of custom records, each its type, 8, and its value |
//! | bounds | the most fee, tries and parts, and the least part, 8 each; the most blocks, 2 |
//! | a part | its number, 8; the list of hops, each its id, 8, its two nodes, 33 each, its amount, 8, and its expiry, 4; its amount and fee, 8 each; its blocks, 4; how it ended, 1 (0 it hasn't failed, 1 unreadable, 2 failed: the place, 8, the code, 2, and whether the terms are new, 1) |
//! | an estimate | the id, 8, and the node of its edge, 33; the least, the most and the penalty, 8 each |
#![tactic(auto)]

mod arrivals;
mod edges;
mod endings;
mod estimates;
mod fields;
mod invoices;
mod learnt;
mod lists;
mod parts;
mod payers;
mod payments;
mod state_fault;
mod states;
mod stored;

pub use learnt::{read_estimates, write_estimates};
pub use state_fault::StateFault;
pub use states::{read, write, written_is_read};
