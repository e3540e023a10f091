//! Why a call about a payment failed.

ghost use Rattle.std.specs.Prelude.{◌≡◌};
ghost use Rattle.lgm_c.specs.PaymentFaults.{payment_number};

/// Why a payer sends nothing, or can't be told something. Each has a number.
#[derive(Clone, Copy, Debug, PartialEq, Eq)]
pub(crate) enum PaymentFault {
    /// 71: the cheapest route has a fee beyond what the bound leaves.
    TooDear,
    /// 72: the payer's channels can't send what is left.
    ChannelsShort,
    /// 73: the edges into the payee can't carry what is left.
    PayeeShort,
    /// 74: as many parts as the bound allows were sent.
    TriesUsedUp,
    /// 75: the payee returned a failure that no other try mends.
    PayeeRefused,
    /// 76: the payment was abandoned.
    Abandoned,
    /// 77: the paths from the payer to the payee can't carry what is left.
    PathsShort,
    /// 81: no payment has this number.
    UnknownPayment,
    /// 82: the payment has no part with this number.
    UnknownPart,
    /// 83: the part isn't under way.
    NotUnderWay,
    /// 84: a failure of a node beyond the part's route.
    BeyondRoute,
    /// 85: the node doesn't send this failure code.
    ForeignCode,
    /// 86: nothing of the payment is under way.
    NothingUnderWay,
    /// 87: the payee took the whole before.
    AlreadyPaid,
    /// 88: parts of the payment are under way.
    UnderWay,
    /// 89: one of the payer's channels doesn't leave it.
    ForeignChannel,
    /// 90: the channels reckon parts that weren't sent yet.
    ReckonedAhead,
    /// 91: the channels don't reckon parts of a paid payment that was forgotten.
    ReckonedBefore,
    /// 92: no part may be under way.
    NoParts,
    /// 93: 2^64 - 1 payments were begun, or parts sent.
    NumbersUsedUp,
}

impl PaymentFault {
    /// Its number, 71 to 93.
    pub(crate) fn number(self) -> u32
        ensures { result ≡ payment_number self }
    {
        match self {
            PaymentFault::TooDear => 71,
            PaymentFault::ChannelsShort => 72,
            PaymentFault::PayeeShort => 73,
            PaymentFault::TriesUsedUp => 74,
            PaymentFault::PayeeRefused => 75,
            PaymentFault::Abandoned => 76,
            PaymentFault::PathsShort => 77,
            PaymentFault::UnknownPayment => 81,
            PaymentFault::UnknownPart => 82,
            PaymentFault::NotUnderWay => 83,
            PaymentFault::BeyondRoute => 84,
            PaymentFault::ForeignCode => 85,
            PaymentFault::NothingUnderWay => 86,
            PaymentFault::AlreadyPaid => 87,
            PaymentFault::UnderWay => 88,
            PaymentFault::ForeignChannel => 89,
            PaymentFault::ReckonedAhead => 90,
            PaymentFault::ReckonedBefore => 91,
            PaymentFault::NoParts => 92,
            PaymentFault::NumbersUsedUp => 93,
        }
    }
}
