//! The writer.

ghost use Rattle.std.specs.Prelude.{◌≡◌, ◌≤◌, [], ◌∷◌, ◌++◌, length, drop, IfErr, MatchResult};
ghost use Rattle.lgm_board.specs.Appended.{AppendIs};
ghost use Rattle.lgm_board.specs.inner.Book.{head_of};
ghost use Rattle.lgm_board.specs.inner.Shown.{IsComplete, Publishes, whole};

use crate::fault::{AppendCause, AppendFault, NoMemory};
use crate::snapshot::MAX_OPERATIONS;
use crate::told::{Head, Told};
use crate::writer::{Sides, absorb, publish_all, reach};
use core::mem::replace_with;
use lgm_store::Op;
use logbook::Plain;
use std::marker::Model;
use std::sync::Wait;

/// What the book is extended to: all published and pending operations.
pub(crate) struct Whole;

impl Plain<Sides, [Op; 0], u64> for Whole {
    ghost use Rattle.std.specs.Prelude.{None, drop};
    ghost use Rattle.lgm_board.specs.inner.Shown.{whole};

    ghost ask = { λ w. (whole w.desk.shown.value.told (drop w.behind w.log.items)).ops };

    ghost state = { λ w. None };
}

/// The writer of a board. Contracts see its board, and two lists of operations: the published ones, and the pending
/// ones after them. It ends with `end`.
pub struct Pen {
    writer: Sides,
    /// The word of the book, which nobody else writes. Used by the proofs.
    head: Head,
    /// The book's list: all published operations, and those that a failed publication would have published.
    noted: Told,
    /// The number of operations appended.
    appended: u64,
}

impl Model for Pen {
    ghost use Rattle.std.specs.Prelude.{drop};
    ghost use Rattle.lgm_board.specs.Handles.{Writing, writing_code};
    ghost use Rattle.lgm_board.specs.inner.Shown.{IsNoted, ops_of, whole};

    ghost Value = { Writing };

    ghost coded = { writing_code };

    ghost view = { λ p. record {
      board = p.writer.desk.shown.value.told.board;
      published = p.writer.desk.shown.value.told.ops;
      pending = ops_of (drop p.writer.behind p.writer.log.items);
    } };

    ghost invariant = { λ p. IsNoted p.head p.noted p.appended
        (whole p.writer.desk.shown.value.told (drop p.writer.behind p.writer.log.items)) };
}

impl Pen {
    /// The pen of a writer whose book agrees with the copies, with nothing appended.
    pub(crate) fn new(writer: Sides, head: Head, noted: Told) -> Pen
        requires head { head ≡ head_of noted.board }
        requires noted { noted ≡ whole writer.desk.shown.value.told (drop writer.behind writer.log.items) }
        requires none { noted.ops ≡ [] }
        ensures board { result.board ≡ noted.board }
        ensures published { result.published ≡ [] }
        ensures pending { result.pending ≡ [] }
    {
        Pen {
            writer,
            head,
            noted,
            appended: 0,
        }
    }

    /// Appends an operation to the pending ones, which readers don't see yet. Never waits.
    ///
    /// On an error the operation is returned, and nothing has changed. The error is `Full` if and only if
    /// [`MAX_OPERATIONS`] operations have been appended, and then nothing is allocated.
    pub fn append(&mut self, op: Op) -> Result<(), AppendFault>
        ensures board { self.new.board ≡ self.old.board }
        ensures published { self.new.published ≡ self.old.published }
        ensures pending { MatchResult result (λ _. self.new.pending ≡ self.old.pending ++ op ∷ [])
            (λ _. self.new.pending ≡ self.old.pending) }
        ensures back { IfErr result (λ fault. fault.op ≡ op) }
        ensures full { AppendIs result (length (self.old.published ++ self.old.pending)) }
    {
        if self.appended == MAX_OPERATIONS {
            return Err(AppendFault {
                op,
                cause: AppendCause::Full,
            });
        }
        match absorb(&mut self.writer, op) {
            Ok(()) => {
                self.appended += 1;
                Ok(())
            }
            Err(op) => Err(AppendFault {
                op,
                cause: AppendCause::NoMemory,
            }),
        }
    }

    /// Publishes all pending operations atomically. Waits for the guards that still show the snapshot before the last
    /// publication.
    ///
    /// On an error the published and the pending operations are unchanged; the next call publishes them.
    pub fn publish<Rt: Wait>(&mut self, rt: &Rt) -> Result<(), NoMemory>
        ensures board { self.new.board ≡ self.old.board }
        ensures published { MatchResult result (λ _. self.new.published
            ≡ self.old.published ++ self.old.pending) (λ _. self.new.published ≡ self.old.published) }
        ensures pending { MatchResult result (λ _. self.new.pending ≡ [])
            (λ _. self.new.pending ≡ self.old.pending) }
    {
        if !self
            .noted
            .extend::<Sides, Whole>(&self.head, &self.writer, self.appended)
        {
            return Err(NoMemory);
        }
        reach(&mut self.writer, self.noted.reborrow())?;
        replace_with(
            &mut self.writer,
            rt,
            |writer: Sides, rt: &Rt| -> (Sides, Result<(), NoMemory>)
                requires complete { IsComplete writer.desk.shown.value.told
                    (drop writer.behind writer.log.items) }
                requires few { length (whole writer.desk.shown.value.told
                    (drop writer.behind writer.log.items)).ops ≤ MAX_OPERATIONS }
                ensures { Publishes result.1 writer.desk.shown.value.told result.0.desk.shown.value.told
                    (drop writer.behind writer.log.items) (drop result.0.behind result.0.log.items) }
            { publish_all(rt, writer) },
        )
    }

    /// A token of what is published now, for an eye to learn. Never waits.
    pub fn tell(&mut self) -> Told
        ensures same { self.new ≡ self.old }
        ensures board { result.board ≡ self.old.board }
        ensures told { result.ops ≡ self.old.published }
    {
        self.writer.published().told().reborrow()
    }

    /// The number of published operations. Nothing is allocated.
    pub fn published(&self) -> u64
        ensures { result ≡ length self.now.published }
    {
        self.writer.published().told().count()
    }

    /// Ends the board: eyes can't enter any more. Pending operations are dropped. Waits for the guards.
    pub fn end<Rt: Wait>(self, rt: &Rt) {
        let Pen {
            writer,
            head: _head,
            noted: _noted,
            appended: _,
        } = self;
        drop(writer.take(rt));
    }
}
