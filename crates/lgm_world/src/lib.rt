//! A writer and its readers as a plain state machine: the model of a board.
//!
//! [`World`] processes one [`Event`] after the other on one thread, as the pen and the eyes of `lgm_board` do on several,
//! with a law on its answers. Where an error is `AllocError`, memory ran out.
#![tactic(auto)]

mod event;
mod laws;
mod world;

pub use event::{Event, Reply, WorldFault};
pub use laws::eyes_answer_on_published_maps;
pub use world::World;
