//! Writing the text of a script and of the report on it.

ghost use Rattle.std.specs.Prelude.{◌≡◌, ◌≤◌, ◌+◌, ◌<◌, ◌^◌, [], length, OnOk, OnErr};
ghost use Rattle.lgm_script.specs.Device.{Appends, AppendsSome};
ghost use Rattle.lgm_script.specs.Output.{told_by, Writes};
ghost use Rattle.lgm_live.specs.inner.Telling.{same_text, slot_text};
ghost use Rattle.lgm_live.specs.inner.Telling.{slots_before, IsThere, AreThere};
ghost use Rattle.lgm_live.specs.declared.report.LiveAnswer.{LiveAnswer};

use crate::parsed_script::LineAnswer;
use crate::report::{LiveAnswer, LiveReport};
use crate::report_place::{ReportPlace, answer_at};
use lgm_answers::{MAX_LINES, outcome_word, send_found};
use lgm_script::{Line, Output, SendFault, Sink};
use std::alloc::Global;

/// Writes the answer to a payment, with the version of its map. That the map of that many operations gives the same
/// answer is proved of each report of `live`, so it isn't computed again.
fn tell_answer<W: Sink>(
    alloc: Global,
    number: u64,
    secret: &[u8; 32],
    answer: &LiveAnswer,
    output: &mut Output<'_, W>,
) -> Result<(), SendFault>
    ensures { Writes (told_by W.seen output.old) (told_by W.seen output.new)
        (same_text number secret.now (Some answer.now)) result }
{
    let version = answer.version;
    let word = format!(in alloc; "at {version} same")?;
    output.send(number, &Line::Word(word.as_str()))?;
    send_found(alloc, number, secret, &answer.result, output)
}

/// Writes the answer to the line with this number, from where the report has it.
fn write_line_answer<W: Sink>(
    alloc: Global,
    workers: usize,
    number: u64,
    line_answer: LineAnswer,
    place: ReportPlace,
    report: &LiveReport,
    output: &mut Output<'_, W>,
) -> Result<(), SendFault>
    requires workers { 0 < workers }
    requires there { IsThere workers report.now place line_answer }
    ensures { Writes (told_by W.seen output.old) (told_by W.seen output.new)
        (slot_text workers report.now number place line_answer) result }
{
    match line_answer {
        LineAnswer::Quiet => Ok(()),
        LineAnswer::Bad => output.send(number, &Line::Word("bad")),
        LineAnswer::Item => {
            let word = outcome_word(report.outcomes[place.items]);
            output.send(number, &Line::Word(word))
        }
        LineAnswer::Commit => output.send(number, &Line::Commit(report.ends[place.ends])),
        LineAnswer::NotLive => output.send(number, &Line::Word("not-live")),
        LineAnswer::Payment(secret) => {
            let Some(answer) = answer_at(report.answers.as_slice(), workers, place.payments) else {
                unreachable!();
            };
            tell_answer(alloc, number, &secret, answer, output)
        }
    }
}

/// Writes the answer to each line, from where the report has it. Some of the text may still be buffered.
fn write_line_answers<W: Sink>(
    alloc: Global,
    workers: usize,
    line_answers: &[LineAnswer],
    report: &LiveReport,
    output: &mut Output<'_, W>,
) -> Result<(), SendFault>
    requires workers { 0 < workers }
    requires line_answers { (length line_answers.now ≤ MAX_LINES) × AreThere workers report.now line_answers.now }
    ensures { Writes (told_by W.seen output.old) (told_by W.seen output.new)
        (slots_before workers report.now line_answers.now (length line_answers.now)) result }
{
    let mut number = 0;
    let mut place = ReportPlace::first();
    for line_answer in line_answers {
        number += 1;
        write_line_answer(alloc, workers, number, *line_answer, place, report, output)?;
        place = place.pass(*line_answer);
    }
    Ok(())
}

/// Writes the text of a script and of the report on it, to an output with an empty buffer. If memory runs out, the
/// lines before are written.
pub(crate) fn write_answers<W: Sink>(
    alloc: Global,
    workers: usize,
    line_answers: &[LineAnswer],
    report: &LiveReport,
    output: &mut Output<'_, W>,
) -> Result<(), SendFault>
    requires workers { 0 < workers }
    requires line_answers { (length line_answers.now ≤ MAX_LINES) × AreThere workers report.now line_answers.now }
    requires buffered { output.old.buffered.now.items ≡ [] }
    ensures writer { output.new.writer.ghost_name ≡ output.old.writer.ghost_name }
    ensures told { OnOk result (Appends (W.seen output.old.writer.now).taken (W.seen output.new.writer.now).taken
        (slots_before workers report.now line_answers.now (length line_answers.now))) }
    ensures part { OnErr result (AppendsSome (W.seen output.old.writer.now).taken (W.seen output.new.writer.now).taken
        (slots_before workers report.now line_answers.now (length line_answers.now))) }
    ensures write { result ≡ Err SendFault.Write
        → (W.seen output.old.writer.now).failures < (W.seen output.new.writer.now).failures }
{
    let told = write_line_answers(alloc, workers, line_answers, report, output);
    if let Err(SendFault::Write) = told {
        return told;
    }
    match output.flush() {
        Ok(()) => told,
        Err(_) => Err(SendFault::Write),
    }
}
