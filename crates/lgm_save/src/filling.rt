//! Filling a buffer from its front.

ghost use Rattle.std.specs.Prelude.{◌≡◌, ◌+◌, ◌≤◌, ◌++◌, List, ℕ, length};
ghost use Rattle.std.specs.List.{AllByRecursion, flat_map};
ghost use Rattle.lgm_save.specs.Records.{IsRecord, bytes_of, framed};
ghost use Rattle.lgm_save.specs.inner.Filling.{IsFilled};

use crate::numbers::{in_eight, in_two};
use crate::record::Record;

/// Writes bytes behind those that were written, and returns how many there are then.
pub(crate) fn put(room: &mut [u8], at: usize, part: &[u8]) -> usize
    requires { at + length part.now ≤ length room.old }
    ensures end { result ≡ at + length part.now }
    ensures filled { (start front : List ℕ) → IsFilled start front at room.old
        → IsFilled start (front ++ part.now) result room.new }
{
    let end = at + part.len();
    room[at..end].copy_from_slice(part);
    end
}

/// The same for a message after its length.
fn put_framed(room: &mut [u8], at: usize, message: &[u8]) -> usize
    requires short { length message.now ≤ 65535 }
    requires room { at + length (framed message.now) ≤ length room.old }
    ensures end { result ≡ at + length (framed message.now) }
    ensures filled { (start front : List ℕ) → IsFilled start front at room.old
        → IsFilled start (front ++ framed message.now) result room.new }
{
    let behind = put(room, at, &in_two(message.len() as u16));
    put(room, behind, message)
}

/// The same for a record.
pub(crate) fn put_record(room: &mut [u8], at: usize, record: &Record<'_>) -> usize
    requires lawful { IsRecord record.now }
    requires room { at + length (bytes_of record.now) ≤ length room.old }
    ensures end { result ≡ at + length (bytes_of record.now) }
    ensures filled { (start front : List ℕ) → IsFilled start front at room.old
        → IsFilled start (front ++ bytes_of record.now) result room.new }
{
    match record {
        Record::Ban(point) => {
            let behind = put(room, at, &[1]);
            put(room, behind, &point.0)
        }
        Record::Channel(sat, message) => {
            let behind = put(room, at, &[2]);
            let behind = put(room, behind, &in_eight(*sat));
            put_framed(room, behind, message.as_slice())
        }
        Record::Update(message) => {
            let behind = put(room, at, &[3]);
            put_framed(room, behind, message.as_slice())
        }
        Record::Node(message) => {
            let behind = put(room, at, &[4]);
            put_framed(room, behind, message.as_slice())
        }
    }
}

/// The same for records.
pub(crate) fn put_records(room: &mut [u8], at: usize, records: &[Record<'_>]) -> usize
    requires lawful { AllByRecursion IsRecord records.now }
    requires room { at + length (flat_map bytes_of records.now) ≤ length room.old }
    ensures { (start front : List ℕ) → IsFilled start front at room.old
        → IsFilled start (front ++ flat_map bytes_of records.now) result room.new }
{
    let mut behind = at;
    for record in records {
        behind = put_record(room, behind, record);
    }
    behind
}
