//! Laws of cuts.

ghost use Rattle.lgm_odds.specs.CutLaw.{BringsNoMore};

/// Parts of a payment, however many, along walks from the payer to the payee, which together carry over each edge no more
/// than it can, bring no more together than can be carried across any cut between the two: each crosses it. A call does
/// nothing: its contract is the law.
pub fn parts_bring_no_more()
    ensures { BringsNoMore }
{}
