//! The map inside another program: a static library for C and for languages that can call C.
//!
//! The header is `include/lgm.h`. A handle has a map of channels, the view in which routes are searched, and a mark.
//! Messages are offered to it; it answers payments with routes, queries of peers with replies, and filters with what
//! passes them now or has come to pass since the mark. A published map has what a map had when it was published, for a
//! thread that reads while another one changes that map: the same calls answer of both. A call that can fail returns a
//! number: 0 if it succeeded, else that of the first fault, which leaves the map unchanged, and the buffers but for what
//! `LGM_ROOM` comes with: the lengths, and the node of `lgm_node`. When memory runs out, `lgm_prune` tells what it had closed.
#![tactic(auto)]

mod argument_fault;
mod arrival;
mod attempt;
mod chain_map;
mod changes;
mod decoding;
mod estimates;
mod estimates_handle;
mod evidence;
mod fading;
mod fault;
mod frames;
mod given;
mod handle;
mod invoice;
mod listing;
mod lookups;
mod map_handle;
mod messages;
mod next_part;
mod odds;
mod outcomes;
mod output;
mod overlay;
mod payer;
mod payer_handle;
mod payer_lookups;
mod payment_fault;
mod pruning;
mod publications;
mod queries;
mod raw_box;
mod reads;
mod routes;
mod saved_estimates;
mod saved_payer;
mod saving;
mod search;
mod stored_messages;
mod syncing;
mod verdict;
mod wanted;
mod words;
