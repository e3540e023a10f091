//! Where a report has the answers to a script's lines.

ghost use Rattle.std.specs.Prelude.{◌≡◌, ◌+◌, ◌<◌, ◌^◌, []};
ghost use Rattle.std.specs.Option.{option_map};
ghost use Rattle.lgm_live.specs.Text.{answer_at};
ghost use Rattle.lgm_live.specs.inner.Telling.{place_behind, place_passed};

use crate::parsed_script::LineAnswer;
use crate::report::LiveAnswer;
use crate::turn::Turn;

/// The indices of the next outcome, end and answer of a report.
#[derive(Clone, Copy)]
pub(crate) struct ReportPlace {
    pub(crate) items: usize,
    pub(crate) ends: usize,
    pub(crate) payments: usize,
}

impl ReportPlace {
    /// The indices before all lines.
    pub(crate) fn first() -> ReportPlace
        ensures { result ≡ place_behind [] }
    {
        ReportPlace {
            items: 0,
            ends: 0,
            payments: 0,
        }
    }

    /// The indices after a line's answer.
    pub(crate) fn pass(self, line_answer: LineAnswer) -> ReportPlace
        requires items { self.items + 1 < 2 ^ 64 }
        requires ends { self.ends + 1 < 2 ^ 64 }
        requires payments { self.payments + 1 < 2 ^ 64 }
        ensures { result ≡ place_passed self line_answer }
    {
        let ReportPlace {
            mut items,
            mut ends,
            mut payments,
        } = self;
        match line_answer {
            LineAnswer::Item => items += 1,
            LineAnswer::Commit => ends += 1,
            LineAnswer::Payment(_) => payments += 1,
            _ => {}
        }
        ReportPlace {
            items,
            ends,
            payments,
        }
    }
}

/// The answer to a payment, by its index among all that were dealt to this many workers round-robin.
pub(crate) fn answer_at(
    answers: &[Vec<LiveAnswer>],
    workers: usize,
    place: usize,
) -> Option<&LiveAnswer>
    requires { 0 < workers }
    ensures { option_map (λ answer. answer.now) result ≡ answer_at workers answers.now place }
{
    let turn = Turn::of(place, workers);
    answers.get(turn.worker)?.get(turn.round)
}
