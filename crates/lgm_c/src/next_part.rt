//! The next part of a payment: what its payer sees, as C says it, and what C gets.

ghost use Rattle.std.specs.Prelude.{◌≡◌, ◌≤◌, ℕ, length, IfSome};
ghost use Rattle.lgm_payer.specs.Payers.{PayerState, Seen};
ghost use Rattle.lgm_timeline.specs.History.{HasView};
ghost use Rattle.lgm_c.specs.Paying.{preferences_chosen, detail_of, detail_of_unfound, detailed, part_buffers};
ghost use Rattle.lgm_c.specs.Paying.{sent_buffers, SendsBeside, SendsIn, SendsOver, Sends};
ghost use Rattle.lgm_c.specs.Routing.{all_payloads};
ghost use Rattle.lgm_c.specs.Status.{number_of, unpaid};
ghost use Rattle.lgm_c.specs.inner.Sending.{seen_over, Fits, SendsNext};

use crate::attempt::budget_of;
use crate::chain_map::ChainMap;
use crate::fault::Fault;
use crate::handle::{Handle, with_held};
use crate::map_handle::LgmMap;
use crate::overlay::LgmEdge;
use crate::payer_handle::LgmPayer;
use crate::routes::{LgmHop, LgmLengths, fill_hops, fill_payloads};
use lgm_graph::{ExtraEdge, MAX_CHANNELS, Network};
use lgm_payer::{Payer, Sending, Sight, Unfound, Unpaid};
use lgm_route::Preferences;
use std::alloc::Global;

/// What a call returns by which nothing is to be sent.
const WHOLE: u32 = 28;

/// The room for the hops of a route.
const MAX_HOPS: usize = 20;

/// The room for their payloads, in bytes.
const MAX_PAYLOADS: usize = 1_300;

/// What a payer sees when it asks for a part of a payment.
#[repr(C)]
#[derive(Clone, Copy)]
pub struct LgmSight<'a> {
    /// The payer's channels: edges out of it, each with what it can send now.
    pub channels: &'a [LgmEdge],
    /// How many parts they reckon: all with a lower number.
    pub reckoned: u64,
    /// The most steps of a search. 0 stands for 5,000,000.
    pub most_steps: u64,
    /// The most labels of a search. 0 stands for 1,000,000.
    pub most_labels: usize,
    /// The height of the chain.
    pub height: u32,
    /// What a failed try is worth to the payer, in msat, if it prefers.
    pub failure_msat: u32,
    /// What each hop is, in msat, if it prefers.
    pub hop_msat: u32,
    /// Whether these two count.
    pub prefers: bool,
}

/// A part that is under way from now on.
#[repr(C)]
#[derive(Clone, Copy)]
pub struct LgmPart {
    /// Its number: how many parts the payer had sent before.
    pub part: u64,
    /// What the payee gets, in msat.
    pub amount_msat: u64,
    /// What is sent beyond that, in msat.
    pub fee_msat: u64,
    /// What comes with some faults.
    pub detail: u64,
    /// The numbers of its hops, and of the bytes of their payloads.
    pub lengths: LgmLengths,
    /// The odds that it fails, in millionths.
    pub odds: u32,
    /// The blocks until its first HTLC expires.
    pub blocks: u32,
    /// Whether its route is the best one.
    pub is_best: bool,
}

impl LgmSight<'_> {
    fn preferences(&self) -> Option<Preferences>
        ensures { result ≡ preferences_chosen self.now }
    {
        if self.prefers {
            Some(Preferences {
                failure_msat: self.failure_msat,
                hop_msat: self.hop_msat,
            })
        } else {
            None
        }
    }
}

/// Asks for the next part, in a network with its view.
pub(crate) fn next_over(
    alloc: Global,
    network: &Network,
    held: &mut Payer,
    payment: u64,
    sight: &LgmSight<'_>,
    own: &[ExtraEdge],
) -> Result<Option<Sending>, Unpaid>
    requires viewed { HasView network.now }
    ensures next { IfSome network.now.graph (λ graph.
        SendsNext (seen_over sight.now own.now network.now graph) payment held.old held.new result) }
    ensures fits { Fits result }
{
    let Some(view) = network.view() else {
        unreachable!();
    };
    let sight = Sight {
        map: network.map(),
        view,
        own,
        reckoned: sight.reckoned,
        preferences: sight.preferences(),
        budget: budget_of(sight.most_steps, sight.most_labels),
        height: sight.height,
    };
    held.next_part(alloc, payment, &sight)
}

/// What comes with a reason why a part has no route.
fn detail_of_unfound(reason: &Unfound) -> Option<u64>
    ensures { result ≡ detail_of_unfound reason.now }
{
    match reason {
        Unfound::Search(_) => None,
        Unfound::TooDear(fee) => Some(*fee),
        Unfound::Short(room) => Some(*room),
        Unfound::PayeeShort(room) => Some(*room),
        Unfound::PathsShort(room) => Some(*room),
    }
}

/// What comes with a reason why nothing is sent.
fn detail_of(reason: &Unpaid) -> Option<u64>
    ensures { result ≡ detail_of reason.now }
{
    match reason {
        Unpaid::PayeeRefused(code) => Some(u64::from(*code)),
        Unpaid::Unfound(reason) => detail_of_unfound(reason),
        Unpaid::UnknownPayment
        | Unpaid::ForeignChannel
        | Unpaid::ReckonedAhead
        | Unpaid::ReckonedBefore
        | Unpaid::TooManyPoints
        | Unpaid::Abandoned
        | Unpaid::TriesUsedUp
        | Unpaid::Payloads(_)
        | Unpaid::NumbersUsedUp => None,
    }
}

/// Writes why nothing is sent, and returns its number.
fn write_reason(reason: &Unpaid, part: &mut LgmPart) -> u32
    ensures status { result ≡ number_of (unpaid reason.now) }
    ensures detail { part.new ≡ detailed (detail_of reason.now) part.old }
{
    if let Some(detail) = detail_of(reason) {
        part.detail = detail;
    }
    Fault::from(*reason).number()
}

/// Writes a part that was sent, with its hops and their payloads.
fn write_sending(sending: &Sending, part: &mut LgmPart, hops: &mut [LgmHop], payloads: &mut [u8])
    requires hops { 20 ≤ length hops.old }
    requires payloads { length (all_payloads sending.now.payloads) ≤ length payloads.old }
    ensures { part_buffers part.new hops.new payloads.new
        ≡ sent_buffers sending.now (part_buffers part.old hops.old payloads.old) }
{
    let route = sending.part.route.as_slice();
    let built = sending.payloads.as_slice();
    let lengths = LgmLengths {
        hops: fill_hops(route, built, hops),
        payloads: fill_payloads(built, payloads),
    };
    *part = LgmPart {
        part: sending.part.number,
        amount_msat: sending.part.amount,
        fee_msat: sending.part.fee,
        detail: part.detail,
        lengths,
        odds: sending.odds,
        blocks: sending.part.blocks,
        is_best: sending.is_best,
    };
}

/// Writes the answer, and returns its number.
fn write_next(
    answer: &Result<Option<Sending>, Unpaid>,
    part: &mut LgmPart,
    hops: &mut [LgmHop],
    payloads: &mut [u8],
) -> u32
    requires hops { 20 ≤ length hops.old }
    requires payloads { 1300 ≤ length payloads.old }
    requires fits { Fits answer.now }
    ensures { (seen : Seen) (payment : ℕ) (old new : PayerState) → SendsNext seen payment old new answer.now
        → SendsBeside seen payment result old new (part_buffers part.old hops.old payloads.old)
        (part_buffers part.new hops.new payloads.new) }
{
    match answer {
        Ok(Some(sending)) => {
            write_sending(sending, part, hops, payloads);
            0
        }
        Ok(None) => WHOLE,
        Err(reason) => write_reason(reason, part),
    }
}

/// Asks for the next part in a map, and writes it.
fn send_next(
    alloc: Global,
    state: &mut ChainMap,
    held: &mut Payer,
    payment: u64,
    sight: &LgmSight<'_>,
    part: &mut LgmPart,
    hops: &mut [LgmHop],
    payloads: &mut [u8],
) -> u32
    ensures same { state.new ≡ state.old }
    ensures sends { SendsIn sight.now payment result state.old held.old held.new
        (part_buffers part.old hops.old payloads.old) (part_buffers part.new hops.new payloads.new) }
{
    if hops.len() < MAX_HOPS || payloads.len() < MAX_PAYLOADS {
        part.lengths = LgmLengths {
            hops: MAX_HOPS,
            payloads: MAX_PAYLOADS,
        };
        return Fault::Room.number();
    }
    if MAX_CHANNELS < state.map().count() {
        return Fault::Full.number();
    }
    match state.next_part(alloc, held, payment, sight) {
        Ok(answer) => write_next(&answer, part, hops, payloads),
        Err(_) => Fault::NoMemory.number(),
    }
}

/// The same in the map of a handle.
fn send_next_over(
    alloc: Global,
    map: &mut LgmMap,
    held: &mut Payer,
    payment: u64,
    sight: &LgmSight<'_>,
    part: &mut LgmPart,
    hops: &mut [LgmHop],
    payloads: &mut [u8],
) -> u32
    ensures same { map.new.value ≡ map.old.value }
    ensures sends { SendsOver sight.now payment result map.old.value held.old held.new
        (part_buffers part.old hops.old payloads.old) (part_buffers part.new hops.new payloads.new) }
{
    with_held!(
        alloc,
        map,
        |state| send_next(
            alloc, &mut state, held, payment, sight, part, hops, payloads
        )
    )
}

/// Chooses the next part of a payment, beside all that is under way, and writes it: it is under way from now on.
#[unsafe(no_mangle)]
pub extern "C" fn lgm_payer_next(
    alloc: Global,
    payer: &mut LgmPayer,
    map: &mut LgmMap,
    payment: u64,
    sight: &LgmSight<'_>,
    part: &mut LgmPart,
    hops: &mut [LgmHop],
    payloads: &mut [u8],
) -> u32
    ensures same { map.new.value ≡ map.old.value }
    ensures sends { Sends sight.now payment result map.old.value
        payer.old.value payer.new.value
        (part_buffers part.old hops.old payloads.old) (part_buffers part.new hops.new payloads.new) }
{
    with_held!(
        alloc,
        payer,
        |held| send_next_over(alloc, map, &mut held, payment, sight, part, hops, payloads)
    )
}
