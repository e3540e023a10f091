//! What was read ahead of a source, and the first line in it.

ghost use Rattle.std.specs.Prelude.{◌≡◌, ◌+◌, ◌≤◌, ◌<◌, ◌-◌, ◌*◌, [], true, false, List, ℕ, Option};
ghost use Rattle.std.specs.Prelude.{length, take, drop, IfOk, IfSome, IfNone, OnOk, OnErr};
ghost use Rattle.lgm_script.specs.Device.{IsAtEnd};
ghost use Rattle.lgm_script.specs.Lines.{ahead, HasNoLineFeed, IsFirstLine};

use crate::devices::{Failed, Sink, Source};
use crate::output::Output;
use memchr::memchr;
use std::alloc::{AllocError, Global};
use std::marker::Model;

/// The maximum length of a line in bytes, without its line feed.
pub const MAX_LINE: usize = 140_000;

/// A room for what is read ahead that leaves most of a processor's second cache to what is made of the lines: more than
/// two of the longest.
pub const ROOM: usize = 294_912;

/// What was read ahead of a source. All memory is allocated when it is made.
///
/// Contracts see the list of these bytes. It belongs to one source: they come before the bytes that the source has
/// left. Lines are found in place, and borrowed.
#[derive(Drop)]
pub struct LineReader {
    buffer: Vec<u8>,
    start: usize,
    end: usize,
}

impl Model for LineReader {
    ghost use Rattle.std.specs.Prelude.{List, ℕ, length, take, drop, ◌≤◌, ◌*◌};
    ghost use Rattle.lgm_script.specs.declared.input.line_reader.TheConstants.{MAX_LINE};

    ghost Value = { List ℕ };

    ghost view = { λ r. drop r.start (take r.end r.buffer.items) };

    ghost invariant = { λ r. (r.start ≤ r.end) × (r.end ≤ length r.buffer.items) × (2 * MAX_LINE ≤ length r.buffer.items) };
}

impl LineReader {
    /// A reader with nothing read ahead, which reads at most `room` bytes ahead: at least two of the longest lines.
    pub fn new(alloc: Global, room: usize) -> Result<LineReader, AllocError>
        requires { 280000 ≤ room }
        ensures { IfOk result (λ reader. reader ≡ []) }
    {
        Ok(LineReader {
            buffer: Vec::from_elem(alloc, 0, room)?,
            start: 0,
            end: 0,
        })
    }

    /// The bytes that were read ahead.
    pub fn buffered(&self) -> &[u8]
        ensures { result.now ≡ self.now }
    {
        &self.buffer[self.start..self.end]
    }

    /// Drops the first `count` bytes: lines that have been answered.
    pub fn drop_front(&mut self, count: usize)
        requires { count ≤ length self.old }
        ensures { self.new ≡ drop count self.old }
    {
        self.start += count;
    }

    /// Reads more bytes ahead, and returns whether there was one. It requires an empty output buffer, so no answer
    /// waits for input.
    pub fn read_more<R: Source, W: Sink>(
        &mut self,
        source: &mut R,
        output: &Output<'_, W>,
    ) -> Result<bool, Failed>
        requires room { length self.old ≤ 140000 }
        requires answered { output.now.buffered.now.items ≡ [] }
        ensures kept { ahead self.new (R.seen source.new).left ≡ ahead self.old (R.seen source.old).left }
        ensures front { OnOk result (take (length self.old) self.new ≡ self.old) }
        ensures more { result ≡ Ok true → length self.old < length self.new }
        ensures same { result ≡ Ok false → self.new ≡ self.old }
        ensures end { result ≡ Ok false → IsAtEnd (R.seen source.new).left }
        ensures cause { OnErr result ((R.seen source.old).failures < (R.seen source.new).failures) }
        ensures well { IfOk result (λ _. (R.seen source.new).failures ≡ (R.seen source.old).failures) }
    {
        let (start, end) = make_room(&mut self.buffer, self.start, self.end);
        self.start = start;
        self.end = end;
        let (_, room) = self.buffer.split_at_mut(end);
        let count = source.read(room)?;
        self.end += count;
        Ok(count > 0)
    }
}

/// The length of the first line, if its line feed is there. The first `searched` bytes have none.
pub(crate) fn find_line(bytes: &[u8], searched: usize) -> Option<usize>
    requires within { searched ≤ length bytes.now }
    requires searched { HasNoLineFeed (take searched bytes.now) }
    ensures line { IfSome result (λ count. (left : Option (List ℕ)) → IsFirstLine bytes.now left count) }
    ensures within { IfSome result (λ count. count < length bytes.now) }
    ensures none { IfNone result (HasNoLineFeed bytes.now) }
{
    let place = memchr(b'\n', &bytes[searched..])?;
    Some(searched + place)
}

/// Moves the bytes from `start` to `end` to the front if there is no room after them. Returns their new offsets.
fn make_room(buffer: &mut Vec<u8>, start: usize, end: usize) -> (usize, usize)
    requires order { start ≤ end }
    requires within { end ≤ length buffer.old.items }
    requires short { end - start ≤ MAX_LINE }
    requires size { 2 * MAX_LINE ≤ length buffer.old.items }
    ensures same { drop result.0 (take result.1 buffer.new.items) ≡ drop start (take end buffer.old.items) }
    ensures order { result.0 ≤ result.1 }
    ensures room { result.1 < length buffer.new.items }
    ensures size { length buffer.new.items ≡ length buffer.old.items }
{
    if end < buffer.len() {
        return (start, end);
    }
    let count = end - start;
    let (front, back) = buffer.split_at_mut(start);
    front[..count].copy_from_slice(&back[..count]);
    (0, count)
}
