//! Questions about the committed map, answered in parallel.

ghost use Rattle.std.specs.Prelude.{◌≡◌, ◌+◌, ◌<◌, ◌^◌, IfOk, OnOk, All, length};
ghost use Rattle.std.specs.List.{AllZip};
ghost use Rattle.std.specs.Thread.{IsSync};
ghost use Rattle.lgm_script.specs.Output.{told_by, Writes};
ghost use Rattle.lgm_script.specs.declared.grammar.command.Command.TheVariants.{Route as AsksRoute};
ghost use Rattle.lgm_answers.specs.Routing.{route_answer};
ghost use Rattle.lgm_run.specs.inner.Questions.{filters_behind};
ghost use Rattle.lgm_run.specs.inner.Questions.{questions_text, IsAnswerTo, IsReady};

use crate::context::Context;
use lgm_answers::{Answer, Filters, answer_filter, answer_query, asked_route};
use lgm_gossip::ChainHash;
use lgm_graph::Network;
use lgm_par::{Gate, MAX_WORKERS, Pool};
use lgm_route::{RouteFault, answer_chunked};
use lgm_script::{Command, LineForm, Output, RouteParameters, SendFault, Sink};
use std::alloc::AllocError;
use std::thread::Threads;

/// The answer to a payment, whose route is searched for by a pool of workers.
fn answer_route<Rt: Threads + Sync, G: Gate>(
    search: &Pool<'_, Rt, G>,
    committed: &Network,
    payment: &RouteParameters,
) -> Result<Answer<'static>, AllocError>
    requires { IsReady committed.now.graph (AsksRoute payment.now) }
    ensures { IfOk result (λ answer. answer ≡ Answer.Route payment.now.secret
        (route_answer committed.now.known committed.now.rows payment.now)) }
{
    let Some(view) = committed.view() else {
        unreachable!();
    };
    match answer_chunked(search, committed.map(), view, &asked_route(payment)) {
        Err(RouteFault::NoMemory) => Err(AllocError),
        found => Ok(Answer::Route(payment.secret, found)),
    }
}

/// Parses a line, and answers its request about the committed map.
fn answer_line<'a, Rt: Threads + Sync, G: Gate>(
    search: &Pool<'_, Rt, G>,
    chain: &ChainHash,
    committed: &'a Network,
    line: &LineForm<'_>,
) -> Result<Answer<'a>, AllocError>
    requires { IsReady committed.now.graph line.now }
    ensures { IfOk result (IsAnswerTo chain.now committed.now.known committed.now.rows line.now) }
{
    let alloc = search.alloc;
    match line.command(alloc)? {
        Command::Query(bytes) => answer_query(alloc, chain, committed.map(), bytes.as_slice()),
        Command::Filter(peer, bytes) => answer_filter(alloc, chain, peer, bytes.as_slice()),
        Command::Route(payment) => answer_route(search, committed, &payment),
        _ => Ok(Answer::Bad),
    }
}

/// Answers lines in chunks, in parallel, or a single line, for whose route all workers search. Each may run out of memory
/// on its own.
fn answer_all<'a, Rt: Threads + Sync, G: Gate>(
    context: &Context<'_, Rt, G>,
    committed: &'a Network,
    lines: &[LineForm<'_>],
) -> Result<Vec<Result<Answer<'a>, AllocError>>, AllocError>
    requires ready { All (IsReady committed.now.graph) lines.now }
    ensures { IfOk result (λ all. AllZip (λ request answer. IfOk answer
        (IsAnswerTo context.now.chain committed.now.known committed.now.rows request))
        lines.now all.items) }
{
    let chain = &context.chain;
    let search = context
        .pool
        .at_most(if lines.len() == 1 { MAX_WORKERS } else { 1 });
    let find = |line: &LineForm<'_>| -> Result<Answer<'_>, AllocError>
        requires sync { IsSync Rt.row }
        requires ready { IsReady committed.now.graph line.now }
    { answer_line(&search, chain, committed, line) };
    context.pool.map(lines, &find)
}

/// Answers lines that request something of the committed map, the first of which has this number.
pub fn answer_questions<Rt: Threads + Sync, G: Gate, W: Sink>(
    context: &Context<'_, Rt, G>,
    committed: &Network,
    first: u64,
    lines: &[LineForm<'_>],
    filters: &mut Filters,
    output: &mut Output<'_, W>,
) -> Result<(), SendFault>
    requires ready { All (IsReady committed.now.graph) lines.now }
    requires number { first + length lines.now < 2 ^ 64 }
    ensures filters { OnOk result
        (filters.new ≡ filters_behind context.now.chain filters.old lines.now) }
    ensures written { Writes (told_by W.seen output.old) (told_by W.seen output.new)
        (questions_text context.now.chain committed.now.known committed.now.rows first filters.old
        lines.now) result }
{
    let (alloc, chain) = (context.pool.alloc, &context.chain);
    let all = answer_all(context, committed, lines)?;
    let mut number = first;
    for answer in all.as_slice() {
        let Ok(answer) = answer else {
            return Err(SendFault::NoMemory);
        };
        answer.send(alloc, chain, committed.map(), number, filters, output)?;
        number += 1;
    }
    Ok(())
}
