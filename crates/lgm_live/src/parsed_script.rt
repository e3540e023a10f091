//! The commands of a script, collected before any of it is answered.

ghost use Rattle.std.specs.Prelude.{◌≡◌, ◌+◌, ◌%◌, ◌<◌, ◌^◌, [], ◌∷◌, ◌++◌, length, replicate, IfOk, OnOk};
ghost use Rattle.lgm_live.specs.inner.Gathered.{line_answer_of, appended_to, with_request, with_line};

use crate::lists::{Batches, RequestLists};
use crate::turn::Turn;
use lgm_answers::asked_route;
use lgm_route::Request as RouteRequest;
use lgm_script::{Command, Item};
use std::alloc::{AllocError, Global};
use std::marker::Model;
use std::mem;

/// The commands of a script, collected line by line. Contracts see the fields but `above`.
#[derive(Drop)]
pub(crate) struct ParsedScript {
    /// The complete batches of items.
    batches: Batches,
    /// The items since the last commit.
    batch: Vec<Item>,
    /// The payments of each worker.
    lists: RequestLists,
    /// The number of payments.
    payments: usize,
    /// For each payment, the number of complete batches before it. No contract depends on it.
    above: Vec<usize>,
    /// For each line, where the report has its answer.
    line_answers: Vec<LineAnswer>,
}

impl Model for ParsedScript {
    ghost use Rattle.lgm_live.specs.inner.Gathered.{Gathered};

    ghost Value = { Gathered };

    ghost view = { λ a. record {
      batches = a.batches;
      batch = a.batch.items;
      lists = a.lists;
      payments = a.payments;
      line_answers = a.line_answers.items;
    } };
}

impl ParsedScript {
    /// No commands, for this many workers.
    pub(crate) fn new(alloc: Global, workers: usize) -> Result<ParsedScript, AllocError>
        ensures { IfOk result (λ parsed. parsed
            ≡ record { batches = []; batch = []; lists = replicate workers []; payments = 0; line_answers = [] }) }
    {
        Ok(ParsedScript {
            batches: Batches::new(alloc),
            batch: Vec::new(alloc),
            lists: RequestLists::empty(alloc, workers)?,
            payments: 0,
            above: Vec::new(alloc),
            line_answers: Vec::new(alloc),
        })
    }

    /// Ends the batch of the items since the last commit.
    pub(crate) fn end_batch(&mut self, alloc: Global) -> Result<(), AllocError>
        ensures { OnOk result
            (self.new ≡ record self.old { batches = self.old.batches ++ self.old.batch ∷ []; batch = [] }) }
    {
        let batch = mem::replace(&mut self.batch, Vec::new(alloc));
        self.batches.push(batch)
    }

    /// Assigns a payment to the worker whose turn it is.
    fn assign_payment(&mut self, alloc: Global, request: RouteRequest) -> Result<(), AllocError>
        requires some { 0 < length self.old.lists }
        requires few { self.old.payments + 1 < 2 ^ 64 }
        ensures { OnOk result (self.new ≡ record self.old {
          lists = appended_to self.old.lists (self.old.payments % length self.old.lists) request;
          payments = self.old.payments + 1;
        }) }
    {
        let turn = Turn::of(self.payments, self.lists.len());
        self.above.push(self.batches.as_slice().len())?;
        self.lists.append(alloc, turn.worker, request)?;
        self.payments += 1;
        Ok(())
    }

    /// Stores the command of a line, and returns where its answer will be found.
    fn store_command(&mut self, alloc: Global, request: Command) -> Result<LineAnswer, AllocError>
        requires some { 0 < length self.old.lists }
        requires few { self.old.payments + 1 < 2 ^ 64 }
        ensures line_answer { IfOk result (λ line_answer. line_answer ≡ line_answer_of request) }
        ensures kept { OnOk result (self.new ≡ with_request self.old request) }
    {
        match request {
            Command::Quiet => Ok(LineAnswer::Quiet),
            Command::Bad => Ok(LineAnswer::Bad),
            Command::Offer(item) => {
                self.batch.push(item)?;
                Ok(LineAnswer::Item)
            }
            Command::Commit => {
                self.end_batch(alloc)?;
                Ok(LineAnswer::Commit)
            }
            Command::Query(_) | Command::Filter(_, _) => Ok(LineAnswer::NotLive),
            Command::Route(payment) => {
                self.assign_payment(alloc, asked_route(&payment))?;
                Ok(LineAnswer::Payment(payment.secret))
            }
        }
    }

    pub(crate) fn add_command(&mut self, alloc: Global, request: Command) -> Result<(), AllocError>
        requires some { 0 < length self.old.lists }
        requires few { self.old.payments + 1 < 2 ^ 64 }
        ensures { OnOk result (self.new ≡ with_line self.old request) }
    {
        let line_answer = self.store_command(alloc, request)?;
        self.line_answers.push(line_answer)?;
        Ok(())
    }

    /// The complete batches of items.
    pub(crate) fn batches(&self) -> &Batches
        ensures { result.now ≡ self.now.batches }
    {
        &self.batches
    }

    /// The payments of each worker.
    pub(crate) fn lists(&self) -> &RequestLists
        ensures { result.now ≡ self.now.lists }
    {
        &self.lists
    }

    /// For each payment, the number of complete batches before it, in order.
    pub(crate) fn above(&self) -> &[usize] {
        self.above.as_slice()
    }

    /// For each line, where the report has its answer, in order.
    pub(crate) fn line_answers(&self) -> &[LineAnswer]
        ensures { result.now ≡ self.now.line_answers }
    {
        self.line_answers.as_slice()
    }
}

/// Where the answer to a line of a script is found, once everything is answered.
#[derive(Clone, Copy, Debug, PartialEq, Eq)]
pub(crate) enum LineAnswer {
    /// There is none.
    Quiet,
    /// The line isn't a form of the grammar.
    Bad,
    /// The next outcome of an item.
    Item,
    /// The next end of a batch.
    Commit,
    /// The line requests what isn't answered here.
    NotLive,
    /// The next answer to a payment, which has this secret.
    Payment([u8; 32]),
}
