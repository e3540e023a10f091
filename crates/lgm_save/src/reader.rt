//! The records in the bytes of a saved map.

ghost use Rattle.std.specs.Prelude.{◌≡◌, ◌≢◌, ℕ, List, ◌++◌, ◌∷◌, ◌<◌, ◌^◌, length, IfSome, IsNone, IsTrue, ◌↔◌};
ghost use Rattle.lgm_gossip.specs.Layout.{IsAnnounce, IsUpdate, IsNodeAnnounce};
ghost use Rattle.lgm_save.specs.Records.{IsRecord, bytes_of, framed};
ghost use Rattle.lgm_save.specs.Numbers.{in_eight};
ghost use Rattle.lgm_save.specs.Saved.{opening, headed, sealed};
ghost use Rattle.lgm_save.specs.inner.Reading.{Finds, FindsNone, IsKind};
ghost use Rattle.lgm_save.specs.declared.record.Record.{Record};
ghost use Rattle.lgm_gossip.specs.declared.layout.Layout.TheVariants as layouts;

use crate::checksum::Sums;
use crate::numbers::eight_in;
use crate::record::Record;
use crate::strip::{cut, strip, unframed};
use lgm_gossip::{BorrowedBytes, ChainHash, Layout, Point, layout_of};

/// The text "lgm map" with a line feed, and the version of the format.
pub(crate) fn opening() -> [u8; 12]
    ensures { result ≡ opening }
{
    *b"lgm map\n\0\0\0\x02"
}

/// The length of a checksum.
pub(crate) const CHECKSUM: usize = 16;

/// The records' bytes in those of a saved map, if they are whole, of this version and of this chain.
pub(crate) fn body_of<'a>(chain: &ChainHash, bytes: &'a [u8]) -> Option<&'a [u8]>
    ensures some { IfSome result (λ body. bytes.now ≡ sealed (headed chain.now body.now)) }
    ensures none { IsNone result → (body : List ℕ) → bytes.now ≢ sealed (headed chain.now body) }
{
    let (content, sums) = cut(bytes, bytes.len().checked_sub(CHECKSUM)?)?;
    if !Sums::of(content).are_in(sums) {
        return None;
    }
    behind_head(chain, content)
}

/// What is behind the head of a saved map.
fn behind_head<'a>(chain: &ChainHash, content: &'a [u8]) -> Option<&'a [u8]>
    ensures some { IfSome result (λ body. content.now ≡ headed chain.now body.now) }
    ensures none { IsNone result → (body : List ℕ) → length body < 2 ^ 64 → content.now ≢ headed chain.now body }
{
    let rest = strip(content, &opening())?;
    let rest = strip(rest, &chain.0)?;
    let (length, body) = eight_in(rest)?;
    if length == body.len() as u64 {
        Some(body)
    } else {
        None
    }
}

/// The record in front, and what is behind it.
pub(crate) fn next_record(bytes: &[u8]) -> Option<(Record<'_>, &[u8])>
    ensures some { IfSome result (λ found. Finds bytes.now found.0 found.1.now) }
    ensures none { IsNone result → FindsNone bytes.now }
{
    let (kind, rest) = bytes.split_first()?;
    match *kind {
        1 => ban_in(rest),
        2 => channel_in(rest),
        3 => update_in(rest),
        4 => node_in(rest),
        _ => None,
    }
}

fn ban_in(bytes: &[u8]) -> Option<(Record<'_>, &[u8])>
    ensures some { IfSome result (λ found. Finds (1 ∷ bytes.now) found.0 found.1.now) }
    ensures none { IsNone result → length bytes.now < 33 }
{
    let (point, rest) = bytes.split_first_chunk::<33>()?;
    Some((Record::Ban(Point(*point)), rest))
}

fn channel_in(bytes: &[u8]) -> Option<(Record<'_>, &[u8])>
    ensures some { IfSome result (λ found. Finds (2 ∷ bytes.now) found.0 found.1.now) }
    ensures none { IsNone result → (sat : ℕ) (message rest : List ℕ) → sat < 2 ^ 64 → IsAnnounce message
        → bytes.now ≢ (in_eight sat ++ framed message) ++ rest }
{
    let (sat, behind) = eight_in(bytes)?;
    let (message, rest) = message_in(behind, Layout::Announce)?;
    Some((Record::Channel(sat, BorrowedBytes::new(message)), rest))
}

fn update_in(bytes: &[u8]) -> Option<(Record<'_>, &[u8])>
    ensures some { IfSome result (λ found. Finds (3 ∷ bytes.now) found.0 found.1.now) }
    ensures none { IsNone result → (message rest : List ℕ) → IsUpdate message → bytes.now ≢ framed message ++ rest }
{
    let (message, rest) = message_in(bytes, Layout::Update)?;
    Some((Record::Update(BorrowedBytes::new(message)), rest))
}

fn node_in(bytes: &[u8]) -> Option<(Record<'_>, &[u8])>
    ensures some { IfSome result (λ found. Finds (4 ∷ bytes.now) found.0 found.1.now) }
    ensures none { IsNone result → (message rest : List ℕ) → IsNodeAnnounce message → bytes.now ≢ framed message ++ rest }
{
    let (message, rest) = message_in(bytes, Layout::Node)?;
    Some((Record::Node(BorrowedBytes::new(message)), rest))
}

/// A message of this kind behind its length, and what is behind it.
fn message_in(bytes: &[u8], layout: Layout) -> Option<(&[u8], &[u8])>
    ensures some { IfSome result (λ found. (bytes.now ≡ framed found.0.now ++ found.1.now) × IsKind layout found.0.now) }
    ensures none { IsNone result → (message rest : List ℕ) → IsKind layout message → bytes.now ≢ framed message ++ rest }
{
    let (message, rest) = unframed(bytes)?;
    if is_kind(message, layout) {
        Some((message, rest))
    } else {
        None
    }
}

/// Whether the bytes encode a message of this kind.
fn is_kind(message: &[u8], layout: Layout) -> bool
    ensures { IsTrue result ↔ IsKind layout message.now }
{
    match layout_of(message) {
        Layout::Announce => matches!(layout, Layout::Announce),
        Layout::Update => matches!(layout, Layout::Update),
        Layout::Node => matches!(layout, Layout::Node),
        Layout::Other => false,
    }
}
