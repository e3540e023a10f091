//! Input: the lines of a script, however its bytes arrive.

mod group;
mod line_reader;
mod read;

pub use group::{Group, next_group};
pub use line_reader::{LineReader, MAX_LINE, ROOM};
pub use read::{LineFault, more_begins, next_line};
