//! Answering lines in groups.

ghost use Rattle.std.specs.Prelude.{◌≡◌, ◌≤◌, ◌+◌, ◌<◌, ◌^◌, length, OnOk};
ghost use Rattle.std.specs.List.{AllByRecursion};
ghost use Rattle.lgm_script.specs.Groups.{IsOfKind, AreAlike};
ghost use Rattle.lgm_script.specs.Output.{told_by, Writes};
ghost use Rattle.lgm_script.specs.declared.grammar.command.Command.{Command};
ghost use Rattle.lgm_answers.specs.Script.{text_for};
ghost use Rattle.lgm_run.specs.inner.CheckedItem.{IsItemOf};
ghost use Rattle.lgm_run.specs.inner.Steps.{state_alone, text_alone, state_after, state_from, text_from};

use crate::checked_item::{CheckedItem, check_lines};
use crate::context::Context;
use crate::engine::Engine;
use crate::lookahead::lookahead;
use lgm_answers::{MAX_LINES, outcome_word};
use lgm_check::Refusal;
use lgm_par::Gate;
use lgm_script::{Command, Group, Line, LineForm, LineKind, Output, SendFault, Sink};
use lgm_store::Hint;
use std::alloc::Global;
use std::thread::Threads;

/// Answers the line of an item, which was checked: offers the item, if there is one, and writes its outcome.
#[inline(always)]
fn answer_item<Rt: Threads + Sync, G: Gate, W: Sink>(
    context: &Context<'_, Rt, G>,
    number: u64,
    item: Option<Result<CheckedItem, Refusal>>,
    hint: Hint,
    engine: &mut Engine,
    output: &mut Output<'_, W>,
) -> Result<(), SendFault>
    requires few { engine.old.accepted + 1 < 2 ^ 64 }
    ensures state { (request : Command) → IsItemOf context.now.chain request item
        → OnOk result (engine.new ≡ state_after context.now.chain engine.old request) }
    ensures written { (request : Command) → IsItemOf context.now.chain request item
        → Writes (told_by W.seen output.old) (told_by W.seen output.new)
        (text_for context.now.chain number engine.old request) result }
{
    let Some(item) = item else {
        return output.send(number, &Line::Word("bad"));
    };
    match engine.offer(context.pool.alloc, item, hint) {
        // Nearly all are: this word is compiled into the line.
        Ok(()) => output.send(number, &Line::Word(outcome_word(None))),
        Err(Refusal::NoMemory) => Err(SendFault::NoMemory),
        Err(refusal) => output.send(number, &Line::Word(outcome_word(Some(refusal)))),
    }
}

/// Answers lines of items, the first of which has this number: they are checked in parallel, and offered in order.
fn answer_items<Rt: Threads + Sync, G: Gate, W: Sink>(
    context: &Context<'_, Rt, G>,
    first: u64,
    group: &Group<'_>,
    engine: &mut Engine,
    output: &mut Output<'_, W>,
) -> Result<(), SendFault>
    requires items { AllByRecursion (IsOfKind LineKind.Item) group.now.lines.items }
    requires number { first + length group.now.lines.items < 2 ^ 64 }
    requires few { engine.old.accepted + length group.now.lines.items ≤ MAX_LINES }
    ensures state { OnOk result (engine.new ≡ state_from context.now.chain engine.old group.now.lines.items) }
    ensures written { Writes (told_by W.seen output.old) (told_by W.seen output.new)
        (text_from context.now.chain first engine.old group.now.lines.items) result }
{
    let all = check_lines(context, group)?;
    let mut ahead = lookahead(context.pool.alloc, &all)?;
    let mut number = first;
    for item in all {
        let hint = match &item {
            Some(Ok(CheckedItem::Message(message))) => ahead.next(engine.map(), message),
            _ => Hint::none(),
        };
        answer_item(context, number, item, hint, engine, output)?;
        number += 1;
    }
    Ok(())
}

/// Answers a line that is alone in its group: a commit, an empty line, a comment, or a malformed line.
fn answer_alone<W: Sink>(
    alloc: Global,
    number: u64,
    line: &LineForm<'_>,
    engine: &mut Engine,
    output: &mut Output<'_, W>,
) -> Result<(), SendFault>
    requires { IsOfKind LineKind.Other line.now }
    ensures state { OnOk result (engine.new ≡ state_alone engine.old line.now) }
    ensures written { Writes (told_by W.seen output.old) (told_by W.seen output.new)
        (text_alone number engine.old line.now) result }
{
    match line.command(alloc)? {
        Command::Quiet => Ok(()),
        Command::Commit => engine.commit(alloc, number, output),
        _ => output.send(number, &Line::Word("bad")),
    }
}

/// Answers the lines of a group, the first of which has this number. Afterwards their accepted items are in the map,
/// their filters are set, and what was accepted is committed if they request that.
pub fn answer_group<Rt: Threads + Sync, G: Gate, W: Sink>(
    context: &Context<'_, Rt, G>,
    first: u64,
    group: &Group<'_>,
    engine: &mut Engine,
    output: &mut Output<'_, W>,
) -> Result<(), SendFault>
    requires alike { AreAlike group.now.kind group.now.lines.items }
    requires number { first + length group.now.lines.items < 2 ^ 64 }
    requires few { engine.old.accepted + length group.now.lines.items ≤ MAX_LINES }
    ensures state { OnOk result
        (engine.new ≡ state_from context.now.chain engine.old group.now.lines.items) }
    ensures written { Writes (told_by W.seen output.old) (told_by W.seen output.new)
        (text_from context.now.chain first engine.old group.now.lines.items) result }
{
    let lines = group.lines.as_slice();
    match group.kind {
        LineKind::Item => answer_items(context, first, group, engine, output),
        LineKind::Question => engine.answer_questions(context, first, lines, output),
        LineKind::Other => answer_alone(context.pool.alloc, first, &lines[0], engine, output),
    }
}
