//! A notation for scripts and their texts, in which names and messages stand for their digits: that of
//! `gossip/notation.py`, as far as these tests use it.
//!
//! | word | stands for |
//! |---|---|
//! | `A`, `B`, `C` | nodes: the byte 02 and 32 bytes 0a, 0b or 0c |
//! | `P0` to `P255` | nodes: 02, 31 zero bytes and the number |
//! | `H`, `S` | the chain, and the secret of payments |
//! | `ca(600000x1x0,A,B)` | a `channel_announcement` of a channel between two nodes |
//! | `na(B,5)` | a `node_announcement` with a timestamp |
//! | `cu(600000x1x0,0,5)` | a `channel_update` with channel_flags and a timestamp |
//! | `[0105 H 0009]` | the bytes of these words, one after the other |
//!
//! After its fields a message may have others by their names: `cut=1` for the bytes that are missing at its end,
//! `features=01` of an announcement, and of an update `delta=10`, `base=200`, `millionths=2000` and `max=1000`. Signatures
//! are zeros, and terms are those of [`FREE`].

use lgm_gossip::{Bytes, Point, Scid};
use lgm_test_gossip::{Channel, FREE, Node, Terms, Update, point, repeated_point};
use std::alloc::{AllocError, Global};

/// The chain of the test messages, in digits.
pub const CHAIN: &str = "c1c1c1c1c1c1c1c1c1c1c1c1c1c1c1c1c1c1c1c1c1c1c1c1c1c1c1c1c1c1c1c1";

/// The secret of all payments.
const SECRET: &str = "1111111111111111111111111111111111111111111111111111111111111111";

/// Nodes by the byte that they have 32 times.
const NODES: [(&str, u8); 3] = [("A", 0x0a), ("B", 0x0b), ("C", 0x0c)];

/// Other names, with their digits.
const DIGITS: [(&str, &str); 2] = [("H", CHAIN), ("S", SECRET)];

/// The point that a name stands for.
fn point_of(word: &str) -> Option<Point> {
    for (name, byte) in NODES {
        if word == name {
            return Some(repeated_point(2, byte));
        }
    }
    let number = word.strip_prefix("P")?;
    Some(point(u16::from(number.parse::<u8>().ok()?)))
}

/// The digits that a name stands for.
fn named(alloc: Global, word: &str) -> Result<Option<String>, AllocError> {
    if let Some(point) = point_of(word) {
        return Ok(Some(hex::encode(alloc, point.0)?));
    }
    for (name, digits) in DIGITS {
        if word == name {
            return Ok(Some(String::from_str(alloc, digits)?));
        }
    }
    Ok(None)
}

/// The digits of a name, or the word itself.
fn name_or(alloc: Global, word: &str) -> Result<String, AllocError> {
    match named(alloc, word)? {
        Some(digits) => Ok(digits),
        None => String::from_str(alloc, word),
    }
}

/// A number, or 0 if it is none.
fn number(text: Option<&str>) -> u64 {
    match text {
        Some(text) => text.parse::<u64>().unwrap_or(0),
        None => 0,
    }
}

/// A number below 2^32, or 0 if it is none.
fn short_number(text: Option<&str>) -> u32 {
    u32::try_from(number(text)).unwrap_or(0)
}

/// A number below 256, or 0 if it is none.
fn byte(text: Option<&str>) -> u8 {
    u8::try_from(number(text)).unwrap_or(0)
}

fn scid(text: Option<&str>) -> Scid {
    let mut numbers = text.unwrap_or("").split('x');
    let block = number(numbers.next());
    let index = number(numbers.next());
    let output = number(numbers.next());
    Scid::from_u64(block << 40 | index << 16 | output)
}

/// The value of a field that is given by its name.
fn given<'a>(inside: &'a str, name: &str) -> Option<&'a str> {
    for field in inside.split(',') {
        if let Some((own, value)) = field.split_once('=')
            && own == name
        {
            return Some(value);
        }
    }
    None
}

fn features(alloc: Global, inside: &str) -> Result<Vec<u8>, AllocError> {
    match hex::decode(alloc, given(inside, "features").unwrap_or("")) {
        Ok(features) => Ok(features),
        Err(_) => Err(AllocError),
    }
}

fn announced(alloc: Global, inside: &str) -> Result<Option<Bytes>, AllocError> {
    let mut fields = inside.split(',');
    let scid = scid(fields.next());
    let first = point_of(fields.next().unwrap_or(""));
    let second = point_of(fields.next().unwrap_or(""));
    let (Some(first), Some(second)) = (first, second) else {
        return Ok(None);
    };
    let features = features(alloc, inside)?;
    let channel = Channel {
        features: features.as_slice(),
        ..Channel::new(scid, (first, second))
    };
    Ok(Some(channel.bytes(alloc)?))
}

fn node_announced(alloc: Global, inside: &str) -> Result<Option<Bytes>, AllocError> {
    let mut fields = inside.split(',');
    let Some(node) = point_of(fields.next().unwrap_or("")) else {
        return Ok(None);
    };
    let timestamp = short_number(fields.next());
    let features = features(alloc, inside)?;
    let announced = Node {
        features: features.as_slice(),
        ..Node::new(node, timestamp)
    };
    Ok(Some(announced.bytes(alloc)?))
}

/// Changes one of the terms, if the field is that.
fn set_term(terms: &mut Terms, field: &str) {
    let Some((name, value)) = field.split_once('=') else {
        return;
    };
    let value = Some(value);
    if name == "delta" {
        terms.delta = u16::try_from(number(value)).unwrap_or(0);
    } else if name == "base" {
        terms.base = short_number(value);
    } else if name == "millionths" {
        terms.millionths = short_number(value);
    } else if name == "max" {
        terms.max = number(value);
    }
}

/// The terms of an update: those of [`FREE`], but for the ones that are given.
fn terms(inside: &str) -> Terms {
    let mut terms = FREE;
    for field in inside.split(',') {
        set_term(&mut terms, field);
    }
    terms
}

fn updated(alloc: Global, inside: &str) -> Result<Bytes, AllocError> {
    let mut fields = inside.split(',');
    let scid = scid(fields.next());
    let channel_flags = byte(fields.next());
    let timestamp = short_number(fields.next());
    let update = Update {
        terms: terms(inside),
        ..Update::new(scid, channel_flags, timestamp)
    };
    update.bytes(alloc)
}

/// A whole message, if the word is one.
fn whole_message(alloc: Global, kind: &str, inside: &str) -> Result<Option<Bytes>, AllocError> {
    if kind == "ca" {
        return announced(alloc, inside);
    }
    if kind == "na" {
        return node_announced(alloc, inside);
    }
    if kind == "cu" {
        return Ok(Some(updated(alloc, inside)?));
    }
    Ok(None)
}

/// The digits of a message, without those that are cut, if the word is one.
fn message(alloc: Global, word: &str) -> Result<Option<String>, AllocError> {
    let Some((kind, rest)) = word.split_once('(') else {
        return Ok(None);
    };
    let Some((inside, _)) = rest.split_once(')') else {
        return Ok(None);
    };
    let Some(bytes) = whole_message(alloc, kind, inside)? else {
        return Ok(None);
    };
    let mut digits = hex::encode(alloc, bytes.as_slice())?;
    for _ in 0..number(given(inside, "cut")) {
        digits.pop();
        digits.pop();
    }
    Ok(Some(digits))
}

/// A word, spelled out.
fn word_of(alloc: Global, word: &str) -> Result<String, AllocError> {
    match message(alloc, word)? {
        Some(digits) => Ok(digits),
        None => name_or(alloc, word),
    }
}

/// Appends a line, spelled out.
fn push_line(alloc: Global, line: &str, text: &mut String) -> Result<(), AllocError> {
    let mut apart = false;
    let mut within = false;
    for word in line.split(' ') {
        if apart {
            text.push_str(" ")?;
        }
        let (opens, word) = match word.strip_prefix("[") {
            Some(word) => (true, word),
            None => (within, word),
        };
        let (closes, word) = match word.strip_suffix("]") {
            Some(word) => (true, word),
            None => (false, word),
        };
        text.push_str(word_of(alloc, word)?.as_str())?;
        within = opens && !closes;
        apart = !within;
    }
    Ok(())
}

/// A script, or its text, spelled out.
pub fn spelled(alloc: Global, notation: &str) -> Result<String, AllocError> {
    let mut text = String::new(alloc);
    let mut first = true;
    for line in notation.split('\n') {
        if !first {
            text.push_str("\n")?;
        }
        first = false;
        push_line(alloc, line, &mut text)?;
    }
    Ok(text)
}
