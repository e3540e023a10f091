//! `lgm_gossip`: each type of message from bytes and to bytes, and each fault in its order.

mod addresses;
mod borrowed;
mod ends;
mod examples;
mod faults;
mod layouts;
mod lengths;
mod limits;
mod records;
mod words;
