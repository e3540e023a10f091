//! The state between two lines.

ghost use Rattle.std.specs.Prelude.{◌≡◌, ◌+◌, ◌≤◌, ◌<◌, ◌^◌, length, IfOk, IfErr, OnOk, OnErr};
ghost use Rattle.lgm_wire.specs.reading.Reading.{Gives};
ghost use Rattle.lgm_timeline.specs.Timeline.{newest, Advances, RefusesOrRunsOut};
ghost use Rattle.lgm_script.specs.Output.{told_by, Writes};
ghost use Rattle.lgm_answers.specs.Answer.{commit_text};
ghost use Rattle.lgm_run.specs.inner.CheckedItem.{admitted_item, outcome_on, settled};
ghost use Rattle.lgm_run.specs.inner.Questions.{filters_behind, questions_text};
ghost use Rattle.lgm_run.specs.inner.Steps.{opening, state_behind, state_committed};

use crate::checked_item::CheckedItem;
use crate::context::Context;
use crate::questions::answer_questions;
use lgm_answers::{Filters, send_commit};
use lgm_check::Refusal;
use lgm_graph::{Known, Network};
use lgm_par::Gate;
use lgm_script::{Line, LineForm, Output, SendFault, Sink, may_ask_routes};
use lgm_store::{Hint, Map, Seed};
use lgm_timeline::Timeline;
use std::alloc::{AllocError, Global};
use std::marker::Model;
use std::thread::Threads;

/// The state between two lines: the map of all accepted items, with its mark at the last commit, and the filters of peers.
/// Contracts see the known feature bits, the rows of all accepted items, those of the items before the last commit, the
/// number of accepted items, and the filters.
#[derive(Drop)]
pub struct Engine {
    timeline: Timeline,
    filters: Filters,
}

impl Model for Engine {
    ghost use Rattle.lgm_run.specs.inner.Engine.{state_by_parts, IsFew};
    ghost use Rattle.lgm_answers.specs.Script.{ScriptState};

    ghost Value = { ScriptState };

    ghost view = { λ e. state_by_parts e.timeline e.filters };

    ghost invariant = { λ e. IsFew e.timeline };
}

/// Offers a checked item, whose channel may be where the hint says. A refusal or out of memory changes nothing.
#[inline(always)]
#[tactic(auto, unfolding(crate::specs::inner::CheckedItem::admitted_item))]
fn offer_to(
    alloc: Global,
    timeline: &mut Timeline,
    item: CheckedItem,
    hint: Hint,
) -> Result<(), Refusal>
    ensures accepted { OnOk result
        (Advances (admitted_item timeline.old.network.rows item) (newest timeline.old) (newest timeline.new)) }
    ensures refused { IfErr result (RefusesOrRunsOut (admitted_item timeline.old.network.rows item)) }
    ensures stays { OnErr result (newest timeline.new ≡ newest timeline.old) }
    ensures marked { timeline.new.marked ≡ timeline.old.marked }
{
    match item {
        CheckedItem::Message(message) => timeline.offer(alloc, message, hint),
        CheckedItem::Close(scid) => timeline.offer_close(alloc, scid),
    }
}

impl Engine {
    /// No item was accepted. Points will be hashed with the seed, and the known feature bits are copied.
    pub(crate) fn boxed(alloc: Global, seed: Seed, known: &Known) -> Result<Box<Engine>, AllocError>
        ensures { IfOk result (λ engine. engine.value ≡ opening known.now) }
    {
        let engine = Engine {
            timeline: Timeline::new(alloc, Network::new(alloc, seed, known)?),
            filters: Filters::new(alloc),
        };
        Ok(Box::new(alloc, engine)?)
    }

    /// The number of accepted items.
    pub(crate) fn accepted(&self) -> u64
        ensures { result ≡ self.now.accepted }
    {
        self.timeline.version()
    }

    /// The map to which items are offered.
    pub(crate) fn map(&self) -> &Map {
        self.timeline.network().map()
    }

    /// Offers an item, unless its check refused it. Its channel may be where the hint says. A refusal or out of memory
    /// leaves all unchanged.
    pub(crate) fn offer(
        &mut self,
        alloc: Global,
        item: Result<CheckedItem, Refusal>,
        hint: Hint,
    ) -> Result<(), Refusal>
        requires { self.old.accepted + 1 < 2 ^ 64 }
        ensures outcome { Gives Refusal.NoMemory (λ done. done) result
            (settled (outcome_on self.old.rows item)) }
        ensures state { OnOk result (self.new ≡ state_behind self.old (outcome_on self.old.rows item)) }
        ensures same { OnErr result (self.new ≡ self.old) }
    {
        match item {
            Ok(item) => offer_to(alloc, &mut self.timeline, item, hint),
            Err(refusal) => Err(refusal),
        }
    }

    /// Answers lines that request something of the committed map, the first with this number, and sets their filters.
    pub(crate) fn answer_questions<Rt: Threads + Sync, G: Gate, W: Sink>(
        &mut self,
        context: &Context<'_, Rt, G>,
        number: u64,
        lines: &[LineForm<'_>],
        output: &mut Output<'_, W>,
    ) -> Result<(), SendFault>
        requires few { self.old.accepted ≤ 2000000000 }
        requires number { number + length lines.now < 2 ^ 64 }
        ensures state { OnOk result (self.new ≡ record self.old
            { filters = filters_behind context.now.chain self.old.filters lines.now }) }
        ensures written { Writes (told_by W.seen output.old) (told_by W.seen output.new)
            (questions_text context.now.chain self.old.known self.old.committed number
            self.old.filters lines.now) result }
    {
        self.timeline.reach_mark()?;
        if may_ask_routes(lines) {
            self.timeline.make_view_at_mark(context.pool.alloc)?;
        }
        let committed = self.timeline.network_at_mark();
        answer_questions(context, committed, number, lines, &mut self.filters, output)
    }

    /// Commits all accepted items, and writes the news of peers. The cost is that of the items accepted
    /// since the last commit.
    pub(crate) fn commit<W: Sink>(
        &mut self,
        alloc: Global,
        number: u64,
        output: &mut Output<'_, W>,
    ) -> Result<(), SendFault>
        ensures state { OnOk result (self.new ≡ state_committed self.old) }
        ensures written { Writes (told_by W.seen output.old) (told_by W.seen output.new)
            (commit_text number self.old.accepted self.old.committed self.old.rows
            self.old.filters) result }
    {
        self.send_commit(alloc, number, output)?;
        self.timeline.renew_mark();
        Ok(())
    }

    /// Writes the answer to a commit. Without filters there are no news, and none are looked for.
    fn send_commit<W: Sink>(
        &mut self,
        alloc: Global,
        number: u64,
        output: &mut Output<'_, W>,
    ) -> Result<(), SendFault>
        ensures same { self.new ≡ self.old }
        ensures written { Writes (told_by W.seen output.old) (told_by W.seen output.new)
            (commit_text number self.old.accepted self.old.committed self.old.rows self.old.filters) result }
    {
        if self.filters.as_map().is_empty() {
            return output.send(number, &Line::Commit(self.accepted()));
        }
        self.timeline.reach_mark()?;
        let map_diff = self.timeline.map_diff(alloc)?;
        send_commit(
            alloc,
            number,
            self.timeline.version(),
            &self.filters,
            &map_diff,
            output,
        )
    }
}
