//! Why a call failed, and the number that it returns to C.

ghost use Rattle.std.specs.Prelude.{◌≡◌};
ghost use Rattle.lgm_c.specs.Asking.{fault_of};
ghost use Rattle.lgm_c.specs.Status.{number_of, status_of, refused, unrouted, unfound, unbuilt, unsaved, untold, unsent, unpaid, unloaded};
ghost use Rattle.lgm_c.specs.Syncing.{unreplied};
ghost use Rattle.lgm_c.specs.declared.fault.Fault.TheVariants.{NoMemory, Argument};

use crate::argument_fault::ArgumentFault;
use crate::payment_fault::PaymentFault;
use lgm_check::Refusal;
use lgm_payer::{PayerFault, Unfound, Unpaid};
use lgm_payer_state::StateFault;
use lgm_payload::ArrivalFault;
use lgm_query::RequestFault;
use lgm_route::{RouteFault, SearchFault};
use lgm_save::LoadFault;
use lgm_sync::ReplyFault;
use std::alloc::AllocError;

/// Why a call failed. It left the map unchanged, and the buffers that it was to write to but for what comes with
/// `Room`: the lengths, and the node.
#[derive(Clone, Copy, Debug, PartialEq, Eq)]
pub(crate) enum Fault {
    /// 1 to 16: an item was refused.
    Refused(Refusal),
    /// 21 to 25: a payment has no route.
    Unrouted(RouteFault),
    /// 26: the search for a route took as many steps, or made as many labels, as it may, and found none so far.
    Undecided,
    /// 31: the message isn't a query.
    NotQuery,
    /// 32: the message isn't a filter.
    NotFilter,
    /// 33: the map has no announcement of the node.
    NotAnnounced,
    /// 34: the bytes aren't those of a saved map of this chain, payer or estimates.
    NotSaved,
    /// 35: the message isn't a reply to a query of a range.
    NotReply,
    /// 100: the handle is closed.
    Closed,
    /// 101: the handle is open already.
    Open,
    /// 102: out of memory.
    NoMemory,
    /// 104: a buffer is too short for the answer.
    Room,
    /// 105: the map has too many channels for a route search.
    Full,
    /// 106: the map was published, and never changes.
    Published,
    /// 107: there is none: no key above the given one, or no such message.
    None,
    /// 71 to 93: a payer sends nothing for a payment, or can't be told something of it.
    Payment(PaymentFault),
    /// 110 to 120: an argument is wrong.
    Argument(ArgumentFault),
}

impl Fault {
    /// Its number.
    pub(crate) fn number(self) -> u32
        ensures { result ≡ number_of self }
    {
        match self {
            Fault::Refused(refusal) => match refusal.number() {
                Some(number) => u32::from(number),
                None => 102,
            },
            Fault::Unrouted(RouteFault::AmountZero) => 21,
            Fault::Unrouted(RouteFault::AmountTooLarge) => 22,
            Fault::Unrouted(RouteFault::ExpiryTooLarge) => 23,
            Fault::Unrouted(RouteFault::SelfPayment) => 24,
            Fault::Unrouted(RouteFault::NoRoute) => 25,
            Fault::Unrouted(RouteFault::NoMemory) => 102,
            Fault::Undecided => 26,
            Fault::NotQuery => 31,
            Fault::NotFilter => 32,
            Fault::NotAnnounced => 33,
            Fault::NotSaved => 34,
            Fault::NotReply => 35,
            Fault::Closed => 100,
            Fault::Open => 101,
            Fault::NoMemory => 102,
            Fault::Room => 104,
            Fault::Full => 105,
            Fault::Published => 106,
            Fault::None => 107,
            Fault::Payment(fault) => fault.number(),
            Fault::Argument(fault) => fault.number(),
        }
    }
}

/// What a call returns: 0, or the number of its fault.
pub(crate) fn status(outcome: &Result<(), Fault>) -> u32
    ensures { result ≡ status_of outcome.now }
{
    match outcome {
        Ok(()) => 0,
        Err(fault) => fault.number(),
    }
}

impl From<AllocError> for Fault {
    ghost from_gives = { λ _ fault. fault ≡ NoMemory };

    fn from(_e: AllocError) -> Fault {
        Fault::NoMemory
    }
}

impl From<Refusal> for Fault {
    ghost from_gives = { λ refusal fault. fault ≡ refused refusal };

    fn from(refusal: Refusal) -> Fault {
        match refusal {
            Refusal::NoMemory => Fault::NoMemory,
            refusal => Fault::Refused(refusal),
        }
    }
}

impl From<RequestFault> for Fault {
    ghost from_gives = { λ reason fault. fault ≡ fault_of reason };

    fn from(reason: RequestFault) -> Fault {
        match reason {
            RequestFault::Refused(refusal) => Fault::from(refusal),
            RequestFault::NotQuery => Fault::NotQuery,
            RequestFault::NotFilter => Fault::NotFilter,
        }
    }
}

impl From<ReplyFault> for Fault {
    ghost from_gives = { λ reason fault. fault ≡ unreplied reason };

    fn from(reason: ReplyFault) -> Fault {
        match reason {
            ReplyFault::Refused(refusal) => Fault::from(refusal),
            ReplyFault::NotReply => Fault::NotReply,
        }
    }
}

impl From<RouteFault> for Fault {
    ghost from_gives = { λ reason fault. fault ≡ unrouted reason };

    fn from(reason: RouteFault) -> Fault {
        match reason {
            RouteFault::NoMemory => Fault::NoMemory,
            reason => Fault::Unrouted(reason),
        }
    }
}

impl From<SearchFault> for Fault {
    ghost from_gives = { λ reason fault. fault ≡ unfound reason };

    fn from(reason: SearchFault) -> Fault {
        match reason {
            SearchFault::Fault(reason) => Fault::from(reason),
            SearchFault::Undecided => Fault::Undecided,
        }
    }
}

impl From<ArgumentFault> for Fault {
    ghost from_gives = { λ wrong fault. fault ≡ Argument wrong };

    fn from(fault: ArgumentFault) -> Fault {
        Fault::Argument(fault)
    }
}

impl From<ArrivalFault> for Fault {
    ghost from_gives = { λ reason fault. fault ≡ unbuilt reason };

    fn from(reason: ArrivalFault) -> Fault {
        match reason {
            ArrivalFault::NoMemory => Fault::NoMemory,
            ArrivalFault::Reserved => Fault::Argument(ArgumentFault::RecordType),
            ArrivalFault::Order => Fault::Argument(ArgumentFault::RecordOrder),
            ArrivalFault::TooLong => Fault::Argument(ArgumentFault::Payloads),
        }
    }
}

impl From<LoadFault> for Fault {
    ghost from_gives = { λ reason fault. fault ≡ unloaded reason };

    fn from(reason: LoadFault) -> Fault {
        match reason {
            LoadFault::NotSaved => Fault::NotSaved,
            LoadFault::NoMemory => Fault::NoMemory,
        }
    }
}

impl From<StateFault> for Fault {
    ghost from_gives = { λ reason fault. fault ≡ unsaved reason };

    fn from(reason: StateFault) -> Fault {
        match reason {
            StateFault::Damaged => Fault::NotSaved,
            StateFault::NoMemory => Fault::NoMemory,
        }
    }
}

impl From<PayerFault> for Fault {
    ghost from_gives = { λ reason fault. fault ≡ untold reason };

    fn from(reason: PayerFault) -> Fault {
        match reason {
            PayerFault::AmountZero => Fault::Unrouted(RouteFault::AmountZero),
            PayerFault::NoParts => Fault::Payment(PaymentFault::NoParts),
            PayerFault::NumbersUsedUp => Fault::Payment(PaymentFault::NumbersUsedUp),
            PayerFault::UnknownPayment => Fault::Payment(PaymentFault::UnknownPayment),
            PayerFault::UnknownPart => Fault::Payment(PaymentFault::UnknownPart),
            PayerFault::NotUnderWay => Fault::Payment(PaymentFault::NotUnderWay),
            PayerFault::BeyondRoute => Fault::Payment(PaymentFault::BeyondRoute),
            PayerFault::ForeignCode => Fault::Payment(PaymentFault::ForeignCode),
            PayerFault::NothingUnderWay => Fault::Payment(PaymentFault::NothingUnderWay),
            PayerFault::AlreadyPaid => Fault::Payment(PaymentFault::AlreadyPaid),
            PayerFault::UnderWay => Fault::Payment(PaymentFault::UnderWay),
            PayerFault::NoMemory => Fault::NoMemory,
        }
    }
}

impl From<Unfound> for Fault {
    ghost from_gives = { λ reason fault. fault ≡ unsent reason };

    fn from(reason: Unfound) -> Fault {
        match reason {
            Unfound::Search(reason) => Fault::from(reason),
            Unfound::TooDear(_) => Fault::Payment(PaymentFault::TooDear),
            Unfound::Short(_) => Fault::Payment(PaymentFault::ChannelsShort),
            Unfound::PayeeShort(_) => Fault::Payment(PaymentFault::PayeeShort),
            Unfound::PathsShort(_) => Fault::Payment(PaymentFault::PathsShort),
        }
    }
}

impl From<Unpaid> for Fault {
    ghost from_gives = { λ reason fault. fault ≡ unpaid reason };

    fn from(reason: Unpaid) -> Fault {
        match reason {
            Unpaid::UnknownPayment => Fault::Payment(PaymentFault::UnknownPayment),
            Unpaid::ForeignChannel => Fault::Payment(PaymentFault::ForeignChannel),
            Unpaid::ReckonedAhead => Fault::Payment(PaymentFault::ReckonedAhead),
            Unpaid::ReckonedBefore => Fault::Payment(PaymentFault::ReckonedBefore),
            Unpaid::TooManyPoints => Fault::Full,
            Unpaid::Abandoned => Fault::Payment(PaymentFault::Abandoned),
            Unpaid::PayeeRefused(_) => Fault::Payment(PaymentFault::PayeeRefused),
            Unpaid::TriesUsedUp => Fault::Payment(PaymentFault::TriesUsedUp),
            Unpaid::Unfound(reason) => Fault::from(reason),
            Unpaid::Payloads(reason) => Fault::from(reason),
            Unpaid::NumbersUsedUp => Fault::Payment(PaymentFault::NumbersUsedUp),
        }
    }
}
