//! What scripts are made of: devices, input, the grammar and output, from a [`Source`] to a [`Sink`].
//!
//! A [`LineReader`] buffers what was read ahead of a source; an [`Output`] buffers text for a sink, each [`Line`]
//! whole. [`next_line`] finds the next line, and [`next_group`] the lines that are answered together, each classified by
//! its first word as a [`LineForm`], which is parsed into a [`Command`], or finds the item that the line offers, before
//! its digits are decoded. A device's [`Failures`] are counted for contracts alone.
//!
//! Where a public call's error is `AllocError`, memory ran out, and nothing has changed.
#![tactic(auto)]

mod devices;
mod grammar;
mod input;
mod output;

pub use devices::{
    Failed, Failures, FromRead, MemorySink, MemorySource, Sink, Source, ToWrite, write_all,
};
pub use grammar::{
    Command, Item, ItemForm, LineForm, LineKind, RouteParameters, decode_digits, may_ask_routes,
    parse,
};
pub use input::{Group, LineFault, LineReader, MAX_LINE, ROOM, more_begins, next_group, next_line};
pub use output::{BLOCK, Lead, Line, Output, SendFault};
