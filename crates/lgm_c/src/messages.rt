//! Messages to be written, wherever they come from.

ghost use Rattle.std.specs.Prelude.{◌≡◌};
ghost use Rattle.std.specs.Iterator.{YieldsFirstRef, item_count};

use lgm_query::{Backlog, News, ReplyMessage};
use std::marker::Model;
use std::slice;

/// Messages of replies, of what passes a filter, or of news. An iterator; contracts see the list of those still to come.
#[derive(Drop)]
pub(crate) struct Messages<'b, 'a> {
    source: MessageSource<'b, 'a>,
}

/// Where messages come from.
#[derive(Drop)]
enum MessageSource<'b, 'a> {
    Replies(slice::Iter<'b, ReplyMessage<'a>>),
    Backlog(Backlog<'b>),
    News(News<'b, 'b>),
}

impl<'b, 'a> Model for Messages<'b, 'a> {
    ghost use Rattle.std.specs.Prelude.{List, ℕ};
    ghost use Rattle.lgm_c.specs.inner.Messages.{messages_left};

    ghost Value = { List (List ℕ) };

    ghost view = { λ m. messages_left m.source };
}

impl<'b, 'a> Messages<'b, 'a> {
    /// Those of replies.
    pub(crate) fn of_replies(replies: &'b [ReplyMessage<'a>]) -> Messages<'b, 'a>
        ensures { result ≡ replies.now }
    {
        Messages {
            source: MessageSource::Replies(replies.iter()),
        }
    }

    /// Those that pass a filter.
    pub(crate) fn of_backlog(backlog: Backlog<'b>) -> Messages<'b, 'a>
        ensures { result ≡ backlog.entry }
    {
        Messages {
            source: MessageSource::Backlog(backlog),
        }
    }

    /// News.
    pub(crate) fn of_news(news: News<'b, 'b>) -> Messages<'b, 'a>
        ensures { result ≡ news.entry }
    {
        Messages {
            source: MessageSource::News(news),
        }
    }
}

impl<'b, 'a> Iterator for Messages<'b, 'a> {
    type Item = &'b [u8];

    ghost next_gives = { YieldsFirstRef (λ left. left) };

    ghost remaining = { item_count (λ left. left) };

    fn next(&mut self) -> Option<&'b [u8]> {
        match &mut self.source {
            MessageSource::Replies(replies) => match replies.next() {
                Some(reply) => Some(reply.as_slice()),
                None => None,
            },
            MessageSource::Backlog(backlog) => backlog.next(),
            MessageSource::News(news) => news.next(),
        }
    }
}
