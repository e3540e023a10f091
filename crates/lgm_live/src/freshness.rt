//! Checking that payments are answered on maps with the batches above them.

ghost use Rattle.std.specs.Prelude.{◌≡◌, ◌≤◌, ◌<◌, ◌∷◌, length, slice_index_or, IsTrue};
ghost use Rattle.lgm_live.specs.inner.Telling.{IsFreshThere, AreFreshThere};

use crate::parsed_script::LineAnswer;
use crate::report::LiveReport;
use crate::report_place::{ReportPlace, answer_at};
use lgm_answers::MAX_LINES;

/// The number of operations after this many batches.
fn end_of(ends: &[u64], batches: usize) -> u64
    ensures { result ≡ slice_index_or (0 ∷ ends.now) batches 0 }
{
    if batches == 0 {
        return 0;
    }
    match ends.get(batches - 1) {
        Some(end) => *end,
        None => 0,
    }
}

/// Whether a line's answer, if it is a payment, is on a map with the batches above it.
fn is_fresh(
    workers: usize,
    report: &LiveReport,
    place: ReportPlace,
    line_answer: LineAnswer,
) -> bool
    requires { 0 < workers }
    ensures { IsTrue result → IsFreshThere workers report.now place line_answer }
{
    let LineAnswer::Payment(_) = line_answer else {
        return true;
    };
    match answer_at(report.answers.as_slice(), workers, place.payments) {
        Some(answer) => end_of(report.ends.as_slice(), place.ends) <= answer.version,
        None => true,
    }
}

/// Whether each payment is answered on a map with the batches above it.
pub(crate) fn are_fresh(workers: usize, line_answers: &[LineAnswer], report: &LiveReport) -> bool
    requires workers { 0 < workers }
    requires few { length line_answers.now ≤ MAX_LINES }
    ensures { IsTrue result → AreFreshThere workers report.now line_answers.now (length line_answers.now) }
{
    let mut place = ReportPlace::first();
    for line_answer in line_answers {
        if !is_fresh(workers, report, place, *line_answer) {
            return false;
        }
        place = place.pass(*line_answer);
    }
    true
}
