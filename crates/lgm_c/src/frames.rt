//! Messages one after the other, in the caller's buffer.
//!
//! Their length is counted first, which takes no memory. Only if the buffer has room for them are they put together.

ghost use Rattle.std.specs.Prelude.{◌≡◌, ◌+◌, ◌^◌, ◌≤◌, ◌++◌, length, Err, IfOk, IfSome, IsNone, OnOk};
ghost use Rattle.lgm_store.specs.Rows.{empty};
ghost use Rattle.lgm_query.specs.Backlog.{backlog, news};
ghost use Rattle.lgm_timeline.specs.Timeline.{newest};
ghost use Rattle.lgm_c.specs.Status.{status_of};
ghost use Rattle.lgm_c.specs.Writing.{framed, all_framed, buffer, IsCramped};
ghost use Rattle.lgm_c.specs.inner.Framing.{MayWrite};

use crate::fault::Fault;
use crate::messages::Messages;
use crate::output::write_bytes;
use lgm_query::{Backlog, Filter, MapDiff, ReplyMessage};
use lgm_store::Map;
use lgm_timeline::Timeline;
use std::alloc::{AllocError, Global};

/// Appends a message: its length first, in eight bytes, little-endian.
fn frame(written: &mut Vec<u8>, message: &[u8]) -> Result<(), AllocError>
    ensures { OnOk result (written.new.items ≡ written.old.items ++ framed message.now) }
{
    written.extend_from_slice(&(message.len() as u64).to_le_bytes())?;
    written.extend_from_slice(message)?;
    Ok(())
}

/// A number of bytes, and those of a message after its length, unless that is beyond 2^64.
fn with_frame(bytes: usize, message: &[u8]) -> Option<usize>
    ensures sum { IfSome result (λ sum. sum ≡ bytes + length (framed message.now)) }
    ensures none { IsNone result → 2 ^ 64 ≤ bytes + length (framed message.now) }
{
    bytes.checked_add(8)?.checked_add(message.len())
}

/// The number of bytes of messages, each after its length.
fn framed_length(messages: Messages<'_, '_>) -> Option<usize>
    ensures sum { IfSome result (λ sum. sum ≡ length (all_framed messages.entry)) }
    ensures none { IsNone result → 2 ^ 64 ≤ length (all_framed messages.entry) }
{
    let mut sum = 0;
    for message in messages {
        sum = with_frame(sum, message)?;
    }
    Some(sum)
}

/// Messages, each after its length, this many bytes.
fn frame_all(alloc: Global, messages: Messages<'_, '_>, bytes: usize) -> Result<Vec<u8>, AllocError>
    ensures { IfOk result (λ written. written.items ≡ all_framed messages.entry) }
{
    let mut written = Vec::with_capacity(alloc, bytes)?;
    for message in messages {
        frame(&mut written, message)?;
    }
    Ok(written)
}

/// Writes messages, which were counted, each after its length, if the buffer has room for them, and the length of all in any
/// case. Out of memory changes nothing.
fn write_messages(
    alloc: Global,
    counted: Messages<'_, '_>,
    messages: Messages<'_, '_>,
    room: &mut [u8],
    needed: &mut usize,
) -> Result<(), Fault>
    requires { counted ≡ messages }
    ensures written { MayWrite (all_framed messages.entry) (status_of result)
        (buffer room.old needed.old) (buffer room.new needed.new) }
    ensures cramped { IsCramped (all_framed messages.entry) room.old → result ≡ Err Fault.Room }
{
    // No answer has 2^64 bytes.
    let Some(bytes) = framed_length(counted) else {
        return Err(Fault::NoMemory);
    };
    if room.len() < bytes {
        *needed = bytes;
        return Err(Fault::Room);
    }
    let framed = frame_all(alloc, messages, bytes)?;
    write_bytes(&framed, room, needed)
}

/// Writes replies, each after its length, if the buffer has room for them, and the length of all in any case. Out of memory
/// changes nothing.
pub(crate) fn write_replies(
    alloc: Global,
    replies: &[ReplyMessage<'_>],
    room: &mut [u8],
    needed: &mut usize,
) -> Result<(), Fault>
    ensures { MayWrite (all_framed replies.now) (status_of result)
        (buffer room.old needed.old) (buffer room.new needed.new) }
{
    let counted = Messages::of_replies(replies);
    let messages = Messages::of_replies(replies);
    write_messages(alloc, counted, messages, room, needed)
}

/// Writes what passes a filter, as [`write_replies`] does: what is news where there was nothing before.
pub(crate) fn write_backlog(
    alloc: Global,
    map: &Map,
    filter: &Filter,
    room: &mut [u8],
    needed: &mut usize,
) -> Result<(), Fault>
    ensures written { MayWrite (all_framed (backlog map.now filter.now)) (status_of result)
        (buffer room.old needed.old) (buffer room.new needed.new) }
    ensures first { MayWrite (all_framed (news empty map.now filter.now)) (status_of result)
        (buffer room.old needed.old) (buffer room.new needed.new) }
    ensures cramped { IsCramped (all_framed (backlog map.now filter.now)) room.old → result ≡ Err Fault.Room }
{
    let counted = Messages::of_backlog(Backlog::of(map, filter));
    let messages = Messages::of_backlog(Backlog::of(map, filter));
    write_messages(alloc, counted, messages, room, needed)
}

/// Writes the news between two maps, as [`write_replies`] does.
fn write_news(
    alloc: Global,
    map_diff: &MapDiff<'_>,
    filter: &Filter,
    room: &mut [u8],
    needed: &mut usize,
) -> Result<(), Fault>
    ensures { MayWrite (all_framed (news map_diff.now.before map_diff.now.after filter.now)) (status_of result)
        (buffer room.old needed.old) (buffer room.new needed.new) }
{
    let counted = Messages::of_news(map_diff.news(filter));
    let messages = Messages::of_news(map_diff.news(filter));
    write_messages(alloc, counted, messages, room, needed)
}

/// Writes the news since the mark of a map that changes, as [`write_replies`] does.
pub(crate) fn write_marked_news(
    alloc: Global,
    timeline: &mut Timeline,
    filter: &Filter,
    room: &mut [u8],
    needed: &mut usize,
) -> Result<(), Fault>
    ensures same { newest timeline.new ≡ newest timeline.old }
    ensures marked { timeline.new.marked ≡ timeline.old.marked }
    ensures news { MayWrite (all_framed (news timeline.old.marked timeline.old.network.rows filter.now)) (status_of result)
        (buffer room.old needed.old) (buffer room.new needed.new) }
{
    timeline.reach_mark()?;
    write_news(alloc, &timeline.map_diff(alloc)?, filter, room, needed)
}
