//! A map with its view, published by one writer to readers on other threads, and the same as a plain state machine.
//!
//! [`board`] makes a [`Pen`] and its [`Eye`]s, which are of `lgm_board`. [`World`] is the model of them, of `lgm_world`.
#![tactic(auto)]

pub use lgm_board::{
    AppendCause, AppendFault, Eye, Guard, MAX_OPERATIONS, MAX_READERS, NoMemory, Pen, PublishFault,
    Told, board,
};
pub use lgm_world::{Event, Reply, World, WorldFault, eyes_answer_on_published_maps};
