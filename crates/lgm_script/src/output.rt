//! Output: the text of answers, buffered for a sink.

ghost use Rattle.std.specs.Prelude.{◌≡◌, ◌<◌, [], length, OnOk, MatchResult};
ghost use Rattle.lgm_script.specs.Output.{told_by, Tells, TellsPart, Writes};
ghost use Rattle.lgm_script.specs.Text.{line_text, message_behind};
ghost use Rattle.lgm_script.specs.declared.output.SendFault.TheVariants.{NoMemory};

mod line_numbers;
mod text;

use crate::devices::{Failed, Sink, write_all};
use line_numbers::LineNumbers;
use std::alloc::AllocError;
pub use text::{Lead, Line};
use text::{append_line, append_message};
use thiserror::Error;

/// The number of bytes that are buffered before they are written.
pub const BLOCK: usize = 65_536;

/// Why a text wasn't written to its end.
#[derive(Clone, Copy, Debug, PartialEq, Eq, Error)]
pub enum SendFault {
    /// The sink failed, or accepted no byte.
    #[error("write failed")]
    Write,
    /// Out of memory.
    #[error("out of memory")]
    NoMemory,
}

impl From<AllocError> for SendFault {
    ghost from_gives = { λ _ e. e ≡ NoMemory };

    fn from(_e: AllocError) -> SendFault {
        SendFault::NoMemory
    }
}

/// Text for a sink: it is buffered, and written once it fills a block.
///
/// Contracts see which sink it is, what that accepted, what is buffered after that, and how often the sink failed. Each
/// call writes its whole text to that sink, or at a fault a prefix of it. At `NoMemory` each line is buffered
/// completely or not at all, and the sink hasn't failed. At `Write` a prefix of what was buffered may have been
/// accepted, and the buffer is empty, so nothing is written twice.
#[derive(Drop)]
pub struct Output<'a, W> {
    writer: &'a mut W,
    buffered: &'a mut Vec<u8>,
    numbers: LineNumbers,
}

impl<'a, W: Sink> Output<'a, W> {
    /// An output to a sink, which buffers text after what the block already contains.
    pub fn new(buffered: &'a mut Vec<u8>, writer: &'a mut W) -> Output<'a, W>
        ensures writer { result.writer.ghost_name ≡ writer.entry.ghost_name }
        ensures same { result.writer.now ≡ writer.entry.now }
        ensures buffered { result.buffered.now.items ≡ buffered.entry.now.items }
    {
        Output {
            writer,
            buffered,
            numbers: LineNumbers::new(),
        }
    }

    /// Writes what is buffered. After `Failed` a prefix of it may have been accepted.
    pub fn flush(&mut self) -> Result<(), Failed>
        ensures written { MatchResult result
            (λ _. Tells (told_by W.seen self.old) (told_by W.seen self.new) [])
            (λ _. TellsPart (told_by W.seen self.old) (told_by W.seen self.new) [] SendFault.Write) }
        ensures empty { self.new.buffered.now.items ≡ [] }
    {
        let written = write_all(self.writer, self.buffered.as_slice());
        self.buffered.clear();
        match written {
            Ok(()) => Ok(()),
            Err(failed) => Err(failed),
        }
    }

    /// Writes what is buffered, if it fills a block.
    fn flush_block(&mut self) -> Result<(), SendFault>
        ensures written { Writes (told_by W.seen self.old) (told_by W.seen self.new) [] result }
        ensures short { OnOk result (length self.new.buffered.now.items < BLOCK) }
    {
        if self.buffered.len() < BLOCK {
            return Ok(());
        }
        match self.flush() {
            Ok(()) => Ok(()),
            Err(_) => Err(SendFault::Write),
        }
    }

    /// Writes a line, after the number of the line that it answers.
    ///
    /// It is compiled into its caller, so if the line is given as a variant, only that variant's text is.
    #[inline(always)]
    pub fn send(&mut self, number: u64, line: &Line<'_>) -> Result<(), SendFault>
        ensures { Writes (told_by W.seen self.old) (told_by W.seen self.new)
            (line_text number line.now) result }
    {
        append_line(self.buffered, &mut self.numbers, number, line)?;
        self.flush_block()
    }

    /// Writes a message, in hexadecimal digits after its lead.
    #[inline(always)]
    pub fn send_message(&mut self, lead: &Lead, message: &[u8]) -> Result<(), SendFault>
        ensures { Writes (told_by W.seen self.old) (told_by W.seen self.new)
            (message_behind lead.now message.now) result }
    {
        append_message(self.buffered, lead, message)?;
        self.flush_block()
    }
}
