//! Replies, and their messages.

ghost use Rattle.std.specs.Prelude.{◌≡◌, ℕ, List, IfOk};
ghost use Rattle.lgm_query.specs.Backlog.{backlog};

use crate::backlog_iter::Backlog;
use crate::filter::Filter;
use lgm_gossip::Bytes;
use lgm_store::Map;
use std::alloc::{AllocError, Global};
use std::marker::Model;

/// A message of a reply: borrowed from a map, or owned if it was made for the reply. Contracts see its bytes.
#[derive(Debug, Drop)]
pub struct ReplyMessage<'a> {
    bytes: MessageBytes<'a>,
}

#[derive(Debug, Drop)]
enum MessageBytes<'a> {
    Borrowed(&'a [u8]),
    Owned(Bytes),
}

impl<'a> Model for ReplyMessage<'a> {
    ghost use Rattle.std.specs.Prelude.{ℕ, List};

    ghost Value = { List ℕ };

    ghost use Rattle.lgm_query.specs.inner.ReplyMessage.{bytes_in};

    ghost view = { λ r. bytes_in r.bytes };
}

impl<'a> ReplyMessage<'a> {
    ghost use Rattle.std.specs.Prelude.{◌≡◌};

    /// A message of a map, borrowed.
    pub fn borrowed(message: &'a [u8]) -> ReplyMessage<'a>
        ensures { result ≡ message.now }
    {
        ReplyMessage {
            bytes: MessageBytes::Borrowed(message),
        }
    }

    /// A message made for the reply.
    pub fn owned(message: Bytes) -> ReplyMessage<'a>
        ensures { result ≡ message }
    {
        ReplyMessage {
            bytes: MessageBytes::Owned(message),
        }
    }

    /// The bytes, borrowed.
    pub fn as_slice(&self) -> &[u8]
        ensures { result.now ≡ self.now }
    {
        match &self.bytes {
            MessageBytes::Borrowed(message) => message,
            MessageBytes::Owned(message) => message.as_slice(),
        }
    }
}

/// Messages to be sent one after the other, each as its bytes. Contracts see the list of lists of bytes.
///
/// A message of the map is borrowed from it: it costs a reference, whatever its length.
#[derive(Debug, Drop)]
pub struct Replies<'a> {
    items: Vec<ReplyMessage<'a>>,
}

impl<'a> Model for Replies<'a> {
    ghost Value = { List (List ℕ) };

    ghost view = { λ r. r.items.items };
}

impl<'a> Replies<'a> {
    /// Wraps a vector, without a copy.
    pub fn from_vec(items: Vec<ReplyMessage<'a>>) -> Replies<'a>
        ensures { result ≡ items.entry.items }
    {
        Replies { items }
    }

    /// The messages, borrowed.
    pub fn as_slice(&self) -> &[ReplyMessage<'a>]
        ensures { result.now ≡ self.now }
    {
        self.items.as_slice()
    }

    /// The vector, without a copy.
    pub fn into_vec(self) -> Vec<ReplyMessage<'a>>
        ensures { result.items ≡ self.entry }
    {
        let Replies { items } = self;
        items
    }
}

/// The messages of a [`Backlog`], borrowed from the map.
pub fn backlog<'a>(alloc: Global, map: &'a Map, filter: &Filter) -> Result<Replies<'a>, AllocError>
    ensures { IfOk result (λ replies. replies ≡ backlog map.now filter.now) }
{
    let mut messages = Vec::with_capacity(alloc, map.count())?;
    for message in Backlog::of(map, filter) {
        messages.push(ReplyMessage::borrowed(message))?;
    }
    Ok(Replies::from_vec(messages))
}
