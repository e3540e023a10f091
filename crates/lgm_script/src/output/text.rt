//! The lines of answers, each appended to a text completely or not at all.

ghost use Rattle.std.specs.Prelude.{◌≡◌, ◌++◌, take, codes, IfOk, OnOk, OnErr};
ghost use Rattle.std.specs.Fmt.{decimal};
ghost use Rattle.lgm_script.specs.Text.{lead, message_behind, scid_text, line_text};
ghost use Rattle.lgm_script.specs.inner.Front.{IsFront};

use crate::output::line_numbers::LineNumbers;
use lgm_gossip::Scid;
use std::alloc::{AllocError, Global};
use std::marker::Model;

/// A line of an answer that is no message, without the number of the line that it answers, which precedes it.
#[derive(Clone, Copy, Debug)]
pub enum Line<'a> {
    /// A word: `N WORD`.
    Word(&'a str),
    /// The number of accepted items at a commit: `N commit V`.
    Commit(u64),
    /// A route: `N route SENT EXPIRY K`.
    Route {
        /// What the payer sends, in msat.
        sent: u64,
        /// The block height at which that expires.
        expiry: u32,
        /// The number of hops, which are written next.
        hops: usize,
    },
    /// A hop of a route, its channel and its payload in hexadecimal digits: `N hop SCID HEX`.
    Hop(Scid, &'a [u8]),
}

/// What precedes each message of an answer: `N `, or for a peer `N to PEER `. It is made once for all of them.
/// Contracts see the text.
#[derive(Drop)]
pub struct Lead {
    text: Vec<u8>,
}

impl Model for Lead {
    ghost use Rattle.std.specs.Prelude.{ℕ, List};

    ghost Value = { List ℕ };

    ghost view = { λ l. l.text.items };
}

impl Lead {
    /// The lead of the messages that answer the line with this number.
    pub fn new(alloc: Global, number: u64, peer: Option<u16>) -> Result<Lead, AllocError>
        ensures { IfOk result (λ front. front ≡ lead number peer) }
    {
        let mut text = Vec::new(alloc);
        push_number(&mut text, number)?;
        let Some(peer) = peer else {
            text.push(b' ')?;
            return Ok(Lead { text });
        };
        text.extend_from_slice(b" to ")?;
        push_number(&mut text, u64::from(peer))?;
        text.push(b' ')?;
        Ok(Lead { text })
    }
}

/// Appends a number in decimal digits.
#[inline(always)]
fn push_number(text: &mut Vec<u8>, number: u64) -> Result<(), AllocError>
    ensures ok { OnOk result (text.new.items ≡ text.old.items ++ decimal number) }
    ensures err { OnErr result (IsFront text.old.items text.new.items) }
{
    let mut digits = itoa::Buffer::new();
    text.extend_from_slice(digits.format(number).as_bytes())?;
    Ok(())
}

/// Appends a space, a word and a line feed. A word that is known when this is compiled is appended at once.
#[inline(always)]
fn push_word(text: &mut Vec<u8>, word: &str) -> Result<(), AllocError>
    ensures ok { OnOk result (text.new.items ≡ text.old.items ++ codes " " ++ word.now ++ codes "\n") }
    ensures err { OnErr result (text.new.items ≡ text.old.items) }
{
    let bytes = word.as_bytes();
    text.reserve(bytes.len().saturating_add(2))?;
    text.push_reserved(b' ');
    for i in 0..bytes.len() {
        text.push_reserved(bytes[i]);
    }
    text.push_reserved(b'\n');
    Ok(())
}

/// Appends a channel id: `BLOCKxINDEXxOUTPUT`.
fn push_scid(text: &mut Vec<u8>, scid: Scid) -> Result<(), AllocError>
    ensures ok { OnOk result (text.new.items ≡ text.old.items ++ scid_text scid) }
    ensures err { OnErr result (IsFront text.old.items text.new.items) }
{
    push_number(text, u64::from(scid.block()))?;
    text.push(b'x')?;
    push_number(text, u64::from(scid.index()))?;
    text.push(b'x')?;
    push_number(text, u64::from(scid.output()))?;
    Ok(())
}

/// Appends a message after its lead, in hexadecimal digits. If memory runs out a prefix of that may be appended.
#[inline(always)]
fn push_message(text: &mut Vec<u8>, lead: &Lead, message: &[u8]) -> Result<(), AllocError>
    ensures ok { OnOk result (text.new.items ≡ text.old.items ++ message_behind lead.now message.now) }
    ensures err { OnErr result (IsFront text.old.items text.new.items) }
{
    text.extend_from_slice(lead.text.as_slice())?;
    lgm_hex::append(text, message)?;
    text.push(b'\n')?;
    Ok(())
}

/// Appends a line. If memory runs out a prefix of it may be appended.
#[inline(always)]
fn push_line(
    text: &mut Vec<u8>,
    numbers: &mut LineNumbers,
    number: u64,
    line: &Line<'_>,
) -> Result<(), AllocError>
    ensures ok { OnOk result (text.new.items ≡ text.old.items ++ line_text number line.now) }
    ensures err { OnErr result (IsFront text.old.items text.new.items) }
{
    match line {
        Line::Word(word) => {
            numbers.push(text, number)?;
            push_word(text, word)
        }
        Line::Commit(count) => {
            numbers.push(text, number)?;
            text.extend_from_slice(b" commit ")?;
            push_number(text, *count)?;
            text.push(b'\n')?;
            Ok(())
        }
        Line::Route { sent, expiry, hops } => {
            numbers.push(text, number)?;
            text.extend_from_slice(b" route ")?;
            push_number(text, *sent)?;
            text.push(b' ')?;
            push_number(text, u64::from(*expiry))?;
            text.push(b' ')?;
            push_number(text, *hops as u64)?;
            text.push(b'\n')?;
            Ok(())
        }
        Line::Hop(scid, payload) => {
            numbers.push(text, number)?;
            text.extend_from_slice(b" hop ")?;
            push_scid(text, *scid)?;
            text.push(b' ')?;
            lgm_hex::append(text, payload)?;
            text.push(b'\n')?;
            Ok(())
        }
    }
}

/// Drops what was appended after the first `length` bytes, if it couldn't be appended completely.
fn keep_if_whole(
    text: &mut Vec<u8>,
    length: usize,
    pushed: Result<(), AllocError>,
) -> Result<(), AllocError>
    ensures same { result ≡ pushed }
    ensures ok { OnOk pushed (text.new.items ≡ text.old.items) }
    ensures err { OnErr pushed (text.new.items ≡ take length text.old.items) }
{
    if pushed.is_err() {
        text.truncate(length);
    }
    pushed
}

/// Appends a line to the text. If memory runs out the text is unchanged.
#[inline(always)]
pub(crate) fn append_line(
    text: &mut Vec<u8>,
    numbers: &mut LineNumbers,
    number: u64,
    line: &Line<'_>,
) -> Result<(), AllocError>
    ensures ok { OnOk result (text.new.items ≡ text.old.items ++ line_text number line.now) }
    ensures err { OnErr result (text.new.items ≡ text.old.items) }
{
    let length = text.len();
    let pushed = push_line(text, numbers, number, line);
    keep_if_whole(text, length, pushed)
}

/// Appends a message after its lead, in hexadecimal digits. If memory runs out the text is unchanged.
#[inline(always)]
pub(crate) fn append_message(
    text: &mut Vec<u8>,
    lead: &Lead,
    message: &[u8],
) -> Result<(), AllocError>
    ensures ok { OnOk result (text.new.items ≡ text.old.items ++ message_behind lead.now message.now) }
    ensures err { OnErr result (text.new.items ≡ text.old.items) }
{
    let length = text.len();
    let pushed = push_message(text, lead, message);
    keep_if_whole(text, length, pushed)
}
