//! The words of numbers.

ghost use Rattle.std.specs.Prelude.{◌≡◌};
ghost use Rattle.lgm_c.specs.Arguments.{argument_word};
ghost use Rattle.lgm_c.specs.PaymentFaults.{payment_word};
ghost use Rattle.lgm_c.specs.Decoding.{decode_word};
ghost use Rattle.lgm_c.specs.Words.{refusal_at, reason_at, no_route_at, word_of_call, word_at, padded};

use crate::output::copy_in_front;
use lgm_check::Refusal;
use lgm_route::{NoRouteReason, RouteFault};

/// The refusal with a number.
fn refusal_at(number: u32) -> Option<Refusal>
    ensures { result ≡ refusal_at number }
{
    match number {
        1 => Some(Refusal::Malformed),
        2 => Some(Refusal::UnknownEven),
        3 => Some(Refusal::Ignored),
        4 => Some(Refusal::NotGossip),
        5 => Some(Refusal::Chain),
        6 => Some(Refusal::Point),
        7 => Some(Refusal::NodeOrder),
        8 => Some(Refusal::Private),
        9 => Some(Refusal::Funding),
        10 => Some(Refusal::Signature),
        11 => Some(Refusal::UnknownChannel),
        12 => Some(Refusal::Known),
        13 => Some(Refusal::Conflict),
        14 => Some(Refusal::UnknownNode),
        15 => Some(Refusal::NotNewer),
        16 => Some(Refusal::Banned),
        _ => None,
    }
}

/// The reason why a payment has no route, by its number.
fn reason_at(number: u32) -> Option<RouteFault>
    ensures { result ≡ reason_at number }
{
    match number {
        21 => Some(RouteFault::AmountZero),
        22 => Some(RouteFault::AmountTooLarge),
        23 => Some(RouteFault::ExpiryTooLarge),
        24 => Some(RouteFault::SelfPayment),
        25 => Some(RouteFault::NoRoute),
        _ => None,
    }
}

/// Why there is no route within limits, by its number.
fn no_route_at(number: u32) -> Option<NoRouteReason>
    ensures { result ≡ no_route_at number }
{
    match number {
        41 => Some(NoRouteReason::PayerHasNoChannel),
        42 => Some(NoRouteReason::PayeeTakesNoPayment),
        43 => Some(NoRouteReason::PayerLacksAmount),
        44 => Some(NoRouteReason::PayeeLacksAmount),
        45 => Some(NoRouteReason::Unconnected),
        46 => Some(NoRouteReason::BeyondDelay),
        47 => Some(NoRouteReason::BeyondHops),
        48 => Some(NoRouteReason::BeyondBoth),
        _ => None,
    }
}

/// The word of a number that stands for a wrong argument: its name, and what it may be.
fn argument_word(number: u32) -> &'static str
    ensures { result.now ≡ argument_word number }
{
    match number {
        110 => "sig: 0 to 3",
        111 => "funding: 0 to 3",
        112 => "edges: at most 100,000",
        113 => "limits: at most 300,000",
        114 => "edge: a maximum of 0",
        115 => "published: not one",
        116 => "hops: no route",
        117 => "record: type < 65,536",
        118 => "records: not ascending",
        119 => "payloads: too long",
        120 => "which: 0, 1 or 2",
        _ => "",
    }
}

/// The word of a number that stands for a fault of a payment, or for a wrong argument.
fn payment_word(number: u32) -> &'static str
    ensures { result.now ≡ payment_word number }
{
    match number {
        71 => "too-dear",
        72 => "channels-short",
        73 => "payee-short",
        74 => "tries-used-up",
        75 => "payee-refused",
        76 => "abandoned",
        77 => "paths-short",
        81 => "unknown-payment",
        82 => "unknown-part",
        83 => "not-under-way",
        84 => "beyond-route",
        85 => "foreign-code",
        86 => "nothing-under-way",
        87 => "already-paid",
        88 => "under-way",
        89 => "foreign-channel",
        90 => "reckoned-ahead",
        91 => "reckoned-before",
        92 => "no-parts",
        93 => "numbers-used-up",
        _ => argument_word(number),
    }
}

/// The word of a number that stands for the first fault of a message, for one of a payment, or for a wrong argument.
fn decode_word(number: u32) -> &'static str
    ensures { result.now ≡ decode_word number }
{
    match number {
        51 => "long",
        52 => "short",
        53 => "cut",
        54 => "encoding",
        55 => "ids",
        56 => "tlv-cut",
        57 => "tlv-not-minimal",
        58 => "tlv-too-long",
        59 => "tlv-order",
        60 => "tlv-kind",
        61 => "flags",
        _ => payment_word(number),
    }
}

/// The word of a number that stands for neither a refusal nor a reason.
fn word_of_call(number: u32) -> &'static str
    ensures { result.now ≡ word_of_call number }
{
    match number {
        0 => "accepted",
        26 => "undecided",
        27 => "so-far",
        28 => "whole",
        31 => "not-query",
        32 => "not-filter",
        33 => "not-announced",
        34 => "not-saved",
        35 => "not-reply",
        100 => "closed",
        101 => "open",
        102 => "no-memory",
        104 => "room",
        105 => "full",
        106 => "published",
        107 => "none",
        _ => decode_word(number),
    }
}

#[tactic(auto, unfolding(crate::specs::Words::word_at))]
fn word_at(number: u32) -> &'static str
    ensures { result.now ≡ word_at number }
{
    if let Some(refusal) = refusal_at(number) {
        return refusal.word();
    }
    if let Some(reason) = reason_at(number) {
        return reason.word();
    }
    match no_route_at(number) {
        Some(reason) => reason.word(),
        None => word_of_call(number),
    }
}

/// The word of a number that a call returned, padded with zeros. 13 has the word `conflict`; any other number that no
/// call returns has the empty word.
#[unsafe(no_mangle)]
pub extern "C" fn lgm_word(number: u32, word: &mut [u8; 24])
    ensures { word.new ≡ padded (word_at number) }
{
    let bytes = word_at(number).as_bytes();
    *word = [0; 24];
    copy_in_front(bytes, word);
}

/// The version of this interface, which is 5.
#[unsafe(no_mangle)]
pub extern "C" fn lgm_version() -> u32
    ensures { result ≡ 5 }
{
    5
}
