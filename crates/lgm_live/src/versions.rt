//! Checking that the versions of the workers' answers are publications of the writer.

ghost use Rattle.std.specs.Prelude.{◌≡◌, ◌≤◌, length, All, IsTrue, IfOk};
ghost use Rattle.std.specs.List.{AllZip};
ghost use Rattle.lgm_live.specs.Answers.{IsAtEnd};
ghost use Rattle.lgm_live.specs.inner.WorkerResult.{IsTied};

use crate::fault::LiveFault;
use crate::report::LiveAnswer;
use crate::worker::WorkerResult;
use lgm_board::Pen;
use std::alloc::Global;

/// Whether an answer is on the empty map or on that of the end of a batch.
fn is_at_end(ends: &[u64], answer: &LiveAnswer) -> bool
    ensures { IsTrue result → IsAtEnd ends.now answer.now }
{
    answer.version == 0 || ends.binary_search(&answer.version).is_ok()
}

/// Whether each answer is on the empty map or on that of the end of a batch.
fn are_at_ends(ends: &[u64], answers: &[LiveAnswer]) -> bool
    ensures { IsTrue result → All (IsAtEnd ends.now) answers.now }
{
    for answer in answers {
        if !is_at_end(ends, answer) {
            return false;
        }
    }
    true
}

/// A worker's answers, after its eye has learned what is published.
fn check_versions(
    pen: &mut Pen,
    ends: &[u64],
    worked: WorkerResult,
) -> Result<Vec<LiveAnswer>, LiveFault>
    requires board { worked.eye.board ≡ pen.old.board }
    requires within { All (λ end. end ≤ length pen.old.published) ends.now }
    ensures same { pen.new ≡ pen.old }
    ensures tied { IfOk result (IsTied pen.old.published ends.now worked) }
{
    let WorkerResult { mut eye, answers } = worked;
    eye.learn(pen.tell());
    if !are_at_ends(ends, answers.as_slice()) {
        return Err(LiveFault::Versions);
    }
    Ok(answers)
}

/// The answers of all workers, after their eyes have learned what is published.
pub(crate) fn check_all_versions(
    alloc: Global,
    pen: &mut Pen,
    ends: &[u64],
    works: Vec<WorkerResult>,
) -> Result<Vec<Vec<LiveAnswer>>, LiveFault>
    requires board { All (λ worked. worked.eye.board ≡ pen.old.board) works.items }
    requires within { All (λ end. end ≤ length pen.old.published) ends.now }
    ensures { IfOk result (λ answers. AllZip (IsTied pen.old.published ends.now) works.items answers.items) }
{
    let mut answers = Vec::new(alloc);
    for worked in works {
        answers.push(check_versions(pen, ends, worked)?)?;
    }
    Ok(answers)
}
