//! Lists of operations that the book of a board has reached. It is for the proofs: at run time it is one number.

ghost use Rattle.std.specs.Prelude.{◌≡◌, ◌≤◌, [], length, None, MatchBool};
ghost use mathlib.Core.List.{IsPrefix};
ghost use Rattle.lgm_board.specs.inner.Book.{head_of};

use crate::snapshot::MAX_OPERATIONS;
use lgm_store::Op;
use logbook::{Gain, Offer, Plain, Play, Rule, Seen, Start, Word};
use std::marker::Model;

/// The rule of the book, whose entries are lists of operations: clauses read an array as a list of any length.
pub(crate) struct Law;

impl Rule<[Op; 0], u64> for Law {
    ghost use Rattle.std.specs.Prelude.{[]};
    ghost use base.Fml.{ftrue};
    ghost use Rattle.lgm_board.specs.inner.Book.{IsKept};

    ghost holds = { λ cells log. IsKept cells log };

    ghost first = { [] };

    ghost hinted = { λ n log. Unit {0} };

    ghost shows = { λ log. [] };

    ghost keeps = { λ names log. ftrue };

    ghost moves = { λ ask before after answer. Unit {0} };
}

/// A step that exchanges nothing.
pub(crate) struct Nothing;

impl Gain<[Op; 0], u64> for Nothing {
    ghost use base.Fml.{ftrue};

    ghost after = { λ names about answer. ftrue };
}

/// A step that extends the book.
pub(crate) struct Extend;

impl Play<[Op; 0], u64> for Extend {
    ghost use Rattle.lgm_board.specs.inner.Book.{Extends};

    ghost then = { Extends };
}

/// The word of the book: the number of its operations.
pub(crate) type Head = Word<[Op; 0], u64, Law>;

/// A token told by a pen: a list of operations of its board, of which only the length exists at run time. Contracts see
/// the board and the list. It may be dropped at any time.
#[derive(Drop)]
pub struct Told {
    count: u64,
    seen: Seen<[Op; 0], u64, Law>,
}

impl Model for Told {
    ghost use Rattle.std.specs.Prelude.{◌≡◌, ◌≤◌, length};
    ghost use Rattle.lgm_board.specs.declared.snapshot.TheConstants.{MAX_OPERATIONS};
    ghost use Rattle.lgm_board.specs.Lists.{joined};
    ghost use Rattle.lgm_board.specs.Handles.{History, history_code, history};

    ghost Value = { History };

    ghost coded = { history_code };

    ghost view = { λ t. history t.seen.book (joined t.seen.log) };

    ghost invariant = { λ t. (t.count ≡ length (joined t.seen.log)) × (t.count ≤ MAX_OPERATIONS) };
}

impl Told {
    /// A new book.
    pub(crate) fn open() -> (Head, Told)
        ensures head { result.0 ≡ head_of result.1.board }
        ensures ops { result.1.ops ≡ [] }
    {
        let (seen, mut first, _second) = Seen::open(Start::alone(), 0, 0);
        (Word::tracked(0, &mut first), Told { count: 0, seen })
    }

    /// The length of the list.
    pub(crate) fn count(&self) -> u64
        ensures count { result ≡ length self.now.ops }
        ensures small { length self.now.ops ≤ MAX_OPERATIONS }
    {
        self.count
    }

    /// A copy.
    pub(crate) fn reborrow(&self) -> Told
        ensures { result ≡ self.now }
    {
        Told {
            count: self.count,
            seen: self.seen.again(),
        }
    }

    /// Whether this list is a prefix of the other. If not, the other is a prefix of this one.
    pub(crate) fn begins(&self, other: &Told) -> bool
        requires { other.now.board ≡ self.now.board }
        ensures { MatchBool result (IsPrefix self.now.ops other.now.ops)
            (IsPrefix other.now.ops self.now.ops) }
    {
        let mut both = self.seen.again();
        both.learn(&other.seen);
        self.count <= other.count
    }

    /// Extends the book, which has reached this list, to the `count` operations that M reads from `about`. Returns
    /// false if the book has reached more, which doesn't happen, since one pen writes it.
    pub(crate) fn extend<X, M: Plain<X, [Op; 0], u64>>(
        &mut self,
        head: &Head,
        about: &X,
        count: u64,
    ) -> bool
        requires head { head.now ≡ head_of self.old.board }
        requires plain { M.state about.now ≡ None }
        requires count { (count ≡ length (M.ask about.now)) × (count ≤ MAX_OPERATIONS) }
        requires more { IsPrefix self.old.ops (M.ask about.now) }
        ensures board { self.new.board ≡ self.old.board }
        ensures ops { MatchBool result (self.new.ops ≡ M.ask about.now) (self.new ≡ self.old) }
    {
        let mut seen = self.seen.again();
        let mut offer: Offer<[Op; 0], u64, Law, Nothing> = seen.plain::<Nothing, X, M>(about);
        let mut pen = seen.no_pen();
        let old = self.count;
        let found = head.compare_exchange::<Extend, Nothing>(
            old, count, &mut seen, &mut offer, &mut pen,
        );
        if found != old {
            return false;
        }
        self.count = count;
        self.seen = seen;
        true
    }
}
