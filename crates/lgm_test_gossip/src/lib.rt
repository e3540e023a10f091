//! Gossip for tests: messages made from their main fields, with zero signatures, operations made of them, and random
//! numbers from a seed.
//!
//! [`Channel`], [`Update`] and [`Node`] have the fields that tests set. `new` takes those without a usual value;
//! `message` gives the message as a type, and `bytes` its encoding. [`ops`] makes operations of fewer numbers,
//! [`empty_map`] a map to which they are applied, and [`map_of`] one of a short list.
#![tactic(auto)]

mod channel;
mod maps;
mod node;
mod numbers;
pub mod ops;
mod points;
mod rows;
mod terms;
mod update;
mod views;
mod writing;

pub use channel::Channel;
pub use maps::{Item, Way, charging, empty_map, free, items_of, map_of, row, up_to};
pub use node::Node;
pub use numbers::Numbers;
pub use points::{point, repeated_point};
pub use rows::have_same_rows;
pub use terms::{FREE, Terms};
pub use update::Update;
pub use views::is_as_made;
pub use writing::{CHAIN, written};
