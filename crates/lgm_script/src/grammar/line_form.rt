//! Lines, classified by their first word.

ghost use Rattle.std.specs.Prelude.{◌≡◌, false, IfOk, IfSome};
ghost use Rattle.std.specs.List.{AllByRecursion};
ghost use Rattle.std.specs.Option.{option_map};
ghost use Rattle.lgm_script.specs.Item.{item_spelled};
ghost use Rattle.lgm_script.specs.Command.{filter_of, form_of, command_by, command_of, item_in, HasLawfulPeer};
ghost use Rattle.lgm_script.specs.inner.Kinds.{kind_by};
ghost use Rattle.lgm_script.specs.Groups.{IsOfKind, IsNoRoute};
ghost use Rattle.lgm_script.specs.declared.grammar.command.Command.TheVariants.{Offer};

use crate::grammar::Command;
use crate::grammar::field::number_below;
use crate::grammar::fields::Fields;
use crate::grammar::item::{ItemForm, bytes, close, decoded, message};
use crate::grammar::route_parameters::payment_in;
use std::alloc::{AllocError, Global};
use std::marker::Model;

/// How a line begins.
#[derive(Clone, Copy, Debug, PartialEq, Eq)]
enum Word {
    /// `m`: a gossip message.
    Message,
    /// `close`: the close of a channel.
    Close,
    /// `q`: a query.
    Query,
    /// `filter`: a peer's filter.
    Filter,
    /// `route`: a payment.
    Route,
    /// The whole line is `commit`.
    Commit,
    /// The line is empty, or a comment.
    Quiet,
    /// Anything else.
    Unknown,
}

impl Word {
    #[inline(always)]
    fn kind(self) -> LineKind
        ensures { result ≡ kind_by self }
    {
        match self {
            Word::Message | Word::Close => LineKind::Item,
            Word::Query | Word::Filter | Word::Route => LineKind::Question,
            Word::Commit | Word::Quiet | Word::Unknown => LineKind::Other,
        }
    }
}

/// What kind of answer a line requests, by its first word. The rest of the line may still be malformed.
#[derive(Clone, Copy, Debug, PartialEq, Eq)]
pub enum LineKind {
    /// The outcome of an item: `m` or `close`.
    Item,
    /// An answer on the committed map: `q`, `filter` or `route`.
    Question,
    /// Anything else: a commit, a comment, an empty line, or an unknown word.
    Other,
}

/// A line whose first word is known, and the text after that, which isn't parsed yet. Contracts see the command.
#[derive(Drop)]
pub struct LineForm<'a> {
    word: Word,
    text: &'a [u8],
}

impl<'a> Model for LineForm<'a> {
    ghost use Rattle.lgm_script.specs.declared.grammar.command.Command.{Command};
    ghost use Rattle.lgm_script.specs.Command.{command_by};

    ghost Value = { Command };

    ghost view = { λ f. command_by f.word f.text.now };
}

/// The offer of an item, if a text spells one.
fn offer(alloc: Global, form: &Option<ItemForm<'_>>) -> Result<Option<Command>, AllocError>
    ensures value { IfOk result
        (λ request. request ≡ option_map (λ item. Offer item) (item_spelled form.now)) }
    ensures peer { IfOk result (λ request. IfSome request HasLawfulPeer) }
{
    match form {
        Some(form) => Ok(decoded(alloc, form)?.map(Command::Offer)),
        None => Ok(None),
    }
}

/// A filter for a peer: `PEER HEX`.
fn filter(alloc: Global, mut fields: Fields<'_>) -> Result<Option<Command>, AllocError>
    ensures value { IfOk result (λ request. request ≡ filter_of fields.entry) }
    ensures peer { IfOk result (λ request. IfSome request HasLawfulPeer) }
{
    let (Some(peer), Some(digits), Some(())) = (fields.next(), fields.next(), fields.end()) else {
        return Ok(None);
    };
    let Some(peer) = number_below(1_000, peer) else {
        return Ok(None);
    };
    match bytes(alloc, digits)? {
        Some(bytes) => Ok(Some(Command::Filter(peer as u16, bytes))),
        None => Ok(None),
    }
}

/// The command of a word and the text after it, if they are a form of the grammar.
fn form(alloc: Global, word: Word, text: &[u8]) -> Result<Option<Command>, AllocError>
    ensures value { IfOk result (λ request. request ≡ form_of word text.now) }
    ensures peer { IfOk result (λ request. IfSome request HasLawfulPeer) }
{
    match word {
        Word::Message => offer(alloc, &message(text)),
        Word::Close => offer(alloc, &close(Fields::new(b' ', text))),
        Word::Query => Ok(bytes(alloc, text)?.map(Command::Query)),
        Word::Filter => filter(alloc, Fields::new(b' ', text)),
        Word::Route => Ok(payment_in(Fields::new(b' ', text)).map(Command::Route)),
        Word::Commit => Ok(Some(Command::Commit)),
        Word::Quiet => Ok(Some(Command::Quiet)),
        Word::Unknown => Ok(None),
    }
}

impl<'a> LineForm<'a> {
    #[inline(always)]
    fn new(word: Word, text: &'a [u8]) -> LineForm<'a>
        ensures { result ≡ command_by word text.now }
    {
        LineForm { word, text }
    }

    /// Classifies a line. Items come first, since most lines are.
    #[inline(always)]
    pub fn of(line: &'a [u8]) -> LineForm<'a>
        ensures { result ≡ command_of line.now }
    {
        if let Some(text) = line.strip_prefix(b"m ") {
            LineForm::new(Word::Message, text)
        } else if let Some(text) = line.strip_prefix(b"close ") {
            LineForm::new(Word::Close, text)
        } else if let Some(text) = line.strip_prefix(b"q ") {
            LineForm::new(Word::Query, text)
        } else if let Some(text) = line.strip_prefix(b"filter ") {
            LineForm::new(Word::Filter, text)
        } else if let Some(text) = line.strip_prefix(b"route ") {
            LineForm::new(Word::Route, text)
        } else if line == b"commit".as_slice() {
            LineForm::new(Word::Commit, line)
        } else if line.is_empty() || line.starts_with(b"#") {
            LineForm::new(Word::Quiet, line)
        } else {
            LineForm::new(Word::Unknown, line)
        }
    }

    /// The kind of the line.
    #[inline(always)]
    pub fn kind(&self) -> LineKind
        ensures { IsOfKind result self.now }
    {
        self.word.kind()
    }

    /// Whether the line may request a route.
    pub fn is_route(&self) -> bool
        ensures { result ≡ false → IsNoRoute self.now }
    {
        self.word == Word::Route
    }

    /// The item that the line offers, as it is spelled there; none if it requests something else, or is malformed.
    pub fn item(&self) -> Option<ItemForm<'a>>
        ensures { item_spelled result ≡ item_in self.now }
    {
        match self.word {
            Word::Message => message(self.text),
            Word::Close => close(Fields::new(b' ', self.text)),
            _ => None,
        }
    }

    /// Parses the rest of the line.
    pub fn command(&self, alloc: Global) -> Result<Command, AllocError>
        ensures value { IfOk result (λ request. request ≡ self.now) }
        ensures peer { IfOk result HasLawfulPeer }
    {
        match form(alloc, self.word, self.text)? {
            Some(request) => Ok(request),
            None => Ok(Command::Bad),
        }
    }
}

/// Whether some of these lines may request a route.
pub fn may_ask_routes(lines: &[LineForm<'_>]) -> bool
    ensures { result ≡ false → AllByRecursion IsNoRoute lines.now }
{
    lines.iter().any(|line| line.is_route())
}
