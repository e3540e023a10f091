//! Messages that are written together.

ghost use Rattle.std.specs.Prelude.{◌≡◌, ◌<◌, ◌++◌, ◌∷◌, [], IfOk, OnOk, OnErr, length, map};
ghost use Rattle.std.specs.List.{flat_map};
ghost use Rattle.lgm_script.specs.Output.{told_by, Writes};
ghost use Rattle.lgm_script.specs.Text.{message_behind};
ghost use Rattle.lgm_answers.specs.inner.Batch.{Adds};

use lgm_script::{Lead, Output, SendFault, Sink};
use std::alloc::{AllocError, Global};
use std::marker::Model;

/// The number of messages that are written together.
const MESSAGES_TOGETHER: usize = 32;

/// Messages of a map that wait to be written. Contracts see the list of them.
///
/// They are anywhere in memory, and reads that don't depend on each other wait for it at the same time. So some messages
/// are collected, a byte of each of their blocks is read, and then they are written.
#[derive(Drop)]
pub(crate) struct Batch<'a> {
    messages: Vec<&'a [u8]>,
    /// The byte that was read of each message. It is stored, since the compiler drops a read whose result isn't used. No
    /// contract depends on it.
    seen: Vec<u8>,
}

impl<'a> Model for Batch<'a> {
    ghost use Rattle.std.specs.Prelude.{List, ℕ, map};

    ghost Value = { List (List ℕ) };

    ghost view = { λ b. map (λ message. message.now) b.messages.items };
}

impl<'a> Batch<'a> {
    /// No messages.
    pub(crate) fn new(alloc: Global) -> Result<Batch<'a>, AllocError>
        ensures { IfOk result (λ batch. batch ≡ []) }
    {
        Ok(Batch {
            messages: Vec::with_capacity(alloc, MESSAGES_TOGETHER)?,
            seen: Vec::with_capacity(alloc, MESSAGES_TOGETHER)?,
        })
    }

    /// Adds a message behind the others, and writes all if they are as many as are written together.
    #[inline(always)]
    pub(crate) fn add<W: Sink>(
        &mut self,
        message: &'a [u8],
        lead: &Lead,
        output: &mut Output<'_, W>,
    ) -> Result<(), SendFault>
        ensures adds { Adds (told_by W.seen output.old) (told_by W.seen output.new)
            (flat_map (message_behind lead.now) self.old) (message_behind lead.now message.now)
            (flat_map (message_behind lead.now) self.new) result }
        ensures few { OnOk result (length self.new < MESSAGES_TOGETHER) }
    {
        self.push(message)?;
        if self.messages.len() < MESSAGES_TOGETHER {
            return Ok(());
        }
        self.send(lead, output)
    }

    fn push(&mut self, message: &'a [u8]) -> Result<(), AllocError>
        ensures ok { OnOk result (self.new ≡ self.old ++ message.now ∷ []) }
        ensures err { OnErr result (self.new ≡ self.old) }
    {
        self.messages.push(message)?;
        Ok(())
    }

    /// Writes the messages, each after the lead, and drops them.
    pub(crate) fn send<W: Sink>(
        &mut self,
        lead: &Lead,
        output: &mut Output<'_, W>,
    ) -> Result<(), SendFault>
        ensures written { Writes (told_by W.seen output.old) (told_by W.seen output.new)
            (flat_map (message_behind lead.now) self.old) result }
        ensures empty { OnOk result (self.new ≡ []) }
    {
        self.read();
        send_slices(lead, self.messages.as_slice(), output)?;
        self.messages.clear();
        Ok(())
    }

    /// Reads a byte of each block of the messages.
    fn read(&mut self)
        ensures { self.new ≡ self.old }
    {
        self.seen.clear();
        for message in self.messages.as_slice() {
            let _ = self.seen.push(byte_of_each_block(message));
        }
    }
}

/// The length of a block of memory, in bytes, of which the processor's cache has all or nothing.
const BLOCK: usize = 64;

/// A byte of each block of a message, put together.
fn byte_of_each_block(message: &[u8]) -> u8 {
    let mut seen = message.last().copied().unwrap_or(0);
    for place in 0..message.len() / BLOCK {
        seen ^= message[place * BLOCK];
    }
    seen
}

/// Writes messages, each after the lead.
fn send_slices<W: Sink>(
    lead: &Lead,
    messages: &[&[u8]],
    output: &mut Output<'_, W>,
) -> Result<(), SendFault>
    ensures { Writes (told_by W.seen output.old) (told_by W.seen output.new)
        (flat_map (message_behind lead.now) (map (λ message. message.now) messages.now)) result }
{
    for message in messages {
        output.send_message(lead, message)?;
    }
    Ok(())
}
