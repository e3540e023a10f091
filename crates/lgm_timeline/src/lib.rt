//! One history of operations on a map, and maps at several positions of it.
//!
//! A [`Timeline`] has the newest map, to which messages and closes are offered, and what others lack: an accepted operation
//! is kept once, whoever still needs it. A mark is a map that stays where it is; an [`Edition`] is one that is shared, with
//! its view, and never changes. A network that lags catches up by the operations that it lacks. If these are more than the
//! map has channels, and 1,024 more, it is given up, and copied anew when it is needed.
//!
//! The only error is out of memory, where no more is said. It leaves the newest map and the one at the mark as they were.
//!
//! # Why there are two maps
//!
//! Requests are answered from what was committed, and news are what came since, while the newest map goes on. Maps change in
//! place, so both have to be there. They share their messages, and cost two indexes and one view:
//!
//! - The newest network has no view, unless routes are searched in it, so that one lookup both admits a message and applies it.
//! - The network at the mark is asked, and has the view. When the mark moves, it stays behind, and catches up with its view
//!   once it is asked again: each operation is applied to each of the two once.
//! - If the operations that it lacks weren't kept, it is dropped when the mark moves, and the newest network is the one at the
//!   mark, too. Only before the next operation there are two again: the newest one is copied, the copy goes on, and the old
//!   one stays, with its view. So a whole network that comes before a commit is applied once, and copied only if more comes.
#![tactic(auto)]

mod edition;
mod op_log;
mod past;
mod timeline;

pub use edition::Edition;
pub use timeline::Timeline;
