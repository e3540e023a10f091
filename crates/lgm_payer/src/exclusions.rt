//! What failed parts leave.

ghost use Rattle.std.specs.Prelude.{◌≡◌, ◌≤◌, fold};
ghost use Rattle.std.specs.Option.{option_copied};
ghost use Rattle.lgm_payer.specs.Overlays.{is_hinted, is_public, limit_by_kind, silent_by_kind, first_other, limit_left, silenced};
ghost use Rattle.lgm_payer.specs.Searches.{refusal_left, refusal_of, blocks_left, or_fewer};

use crate::failure::{Ending, FailureKind, MPP_TIMEOUT};
use crate::overlays::limit_of;
use crate::part::Part;
use lgm_gossip::Point;
use lgm_graph::{ExtraEdge, Hop, Limit};

/// Whether an invoice names the edge of a hop.
fn is_hinted(hints: &[ExtraEdge], hop: &Hop) -> bool
    ensures { result ≡ is_hinted hints.now hop.now }
{
    hints
        .iter()
        .any(|hint| hint.scid == hop.scid && hint.from == hop.from)
}

/// Whether a hop is none of the payer's own, and the invoice doesn't name it.
pub(crate) fn is_public(payer: &Point, hints: &[ExtraEdge], hop: &Hop) -> bool
    ensures { result ≡ is_public payer.now hints.now hop.now }
{
    hop.from != *payer && !is_hinted(hints, hop)
}

/// The limit of a hop that a node didn't take, by what its failure message speaks of.
fn limit_by_kind(kind: FailureKind, is_public: bool, is_renewed: bool, hop: &Hop) -> Option<Limit>
    ensures { result ≡ limit_by_kind kind is_public is_renewed hop.now }
{
    match kind {
        FailureKind::Balance => Some(limit_of(hop, hop.amount.saturating_sub(1))),
        FailureKind::Expiry => None,
        FailureKind::Channel => Some(limit_of(hop, 0)),
        FailureKind::Node => {
            if is_public {
                None
            } else {
                Some(limit_of(hop, 0))
            }
        }
        FailureKind::Terms => {
            if is_public && is_renewed {
                None
            } else {
                Some(limit_of(hop, 0))
            }
        }
    }
}

/// The node that a hop leaves, if the failure message speaks of it.
fn silent_by_kind(kind: FailureKind, is_public: bool, hop: &Hop) -> Option<Point>
    ensures { result ≡ silent_by_kind kind is_public hop.now }
{
    match kind {
        FailureKind::Node if is_public => Some(hop.from),
        _ => None,
    }
}

/// The first hop that isn't the payer's own, which is the second one, or else the first one.
fn first_other(route: &[Hop]) -> Option<&Hop>
    ensures { option_copied result ≡ first_other route.now }
{
    match route.get(1) {
        Some(hop) => Some(hop),
        None => route.first(),
    }
}

/// The limit that a part's end leaves.
pub(crate) fn limit_left(payer: &Point, hints: &[ExtraEdge], part: &Part) -> Option<Limit>
    ensures { result ≡ limit_left payer.now hints.now part.now }
{
    match part.ending {
        None => None,
        Some(Ending::Unreadable) => Some(limit_of(first_other(part.route.as_slice())?, 0)),
        Some(Ending::Failed(failure)) => {
            let hop = part.route.as_slice().get(failure.place)?;
            let kind = FailureKind::of(failure.code);
            limit_by_kind(kind, is_public(payer, hints, hop), failure.is_renewed, hop)
        }
    }
}

/// The node that it silences.
pub(crate) fn silenced(payer: &Point, hints: &[ExtraEdge], part: &Part) -> Option<Point>
    ensures { result ≡ silenced payer.now hints.now part.now }
{
    match part.ending {
        Some(Ending::Failed(failure)) => {
            let hop = part.route.as_slice().get(failure.place)?;
            silent_by_kind(
                FailureKind::of(failure.code),
                is_public(payer, hints, hop),
                hop,
            )
        }
        _ => None,
    }
}

/// The failure code that the payee returned, but one that another try may mend.
pub(crate) fn refusal_left(part: &Part) -> Option<u16>
    ensures { result ≡ refusal_left part.now }
{
    match part.ending {
        Some(Ending::Failed(failure)) => {
            let is_payee = part.route.as_slice().len() <= failure.place;
            if is_payee && failure.code != MPP_TIMEOUT {
                Some(failure.code)
            } else {
                None
            }
        }
        _ => None,
    }
}

/// The first refusal of the payee.
pub(crate) fn refusal_of(parts: &[Part]) -> Option<u16>
    ensures { result ≡ refusal_of parts.now }
{
    let mut refusal = None;
    for part in parts {
        refusal = refusal.or(refusal_left(part));
    }
    refusal
}

/// The most blocks that a part's end leaves.
fn blocks_left(part: &Part) -> u32
    ensures { result ≡ blocks_left part.now }
{
    match part.ending {
        Some(Ending::Failed(failure)) => {
            let is_before = failure.place < part.route.as_slice().len();
            if is_before && FailureKind::of(failure.code).is_far() {
                part.blocks.saturating_sub(1)
            } else {
                u32::MAX
            }
        }
        _ => u32::MAX,
    }
}

/// The most blocks that a bound and parts' ends leave.
pub(crate) fn fewest_blocks(most: u16, parts: &[Part]) -> u32
    ensures exact { result ≡ fold or_fewer most parts.now }
    ensures within { result ≤ most }
{
    let mut fewest = u32::from(most);
    for part in parts {
        fewest = fewest.min(blocks_left(part));
    }
    fewest
}
