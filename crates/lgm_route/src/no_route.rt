//! Why a payment has no route within limits.

ghost use Rattle.std.specs.Prelude.{◌≡◌};
ghost use Rattle.lgm_route.specs.Reasons.{reason_number, reason_word};

/// Why a payment has no route within limits: the first of these that holds, in the order of the variants. Each has a number,
/// and a word.
#[derive(Clone, Copy, Debug, PartialEq, Eq)]
pub enum NoRouteReason {
    /// 41: no edge leaves the payer.
    PayerHasNoChannel,
    /// 42: no edge leads to the payee, since it has no usable channel or requires features that the payer doesn't know.
    PayeeTakesNoPayment,
    /// 43: no edge out of the payer carries the amount.
    PayerLacksAmount,
    /// 44: no edge into the payee carries the amount.
    PayeeLacksAmount,
    /// 45: no usable walk leads from the payer to the payee.
    Unconnected,
    /// 46: each usable walk exceeds the limit of the delay.
    BeyondDelay,
    /// 47: each usable walk exceeds the limit of the hops.
    BeyondHops,
    /// 48: each usable walk exceeds one of the two limits.
    BeyondBoth,
}

impl NoRouteReason {
    /// Its number, 41 to 48.
    pub fn number(self) -> u8
        ensures { result ≡ reason_number self }
    {
        match self {
            NoRouteReason::PayerHasNoChannel => 41,
            NoRouteReason::PayeeTakesNoPayment => 42,
            NoRouteReason::PayerLacksAmount => 43,
            NoRouteReason::PayeeLacksAmount => 44,
            NoRouteReason::Unconnected => 45,
            NoRouteReason::BeyondDelay => 46,
            NoRouteReason::BeyondHops => 47,
            NoRouteReason::BeyondBoth => 48,
        }
    }

    /// Its word.
    pub fn word(self) -> &'static str
        ensures { result.now ≡ reason_word self }
    {
        match self {
            NoRouteReason::PayerHasNoChannel => "payer-has-no-channel",
            NoRouteReason::PayeeTakesNoPayment => "payee-takes-no-payment",
            NoRouteReason::PayerLacksAmount => "payer-lacks-amount",
            NoRouteReason::PayeeLacksAmount => "payee-lacks-amount",
            NoRouteReason::Unconnected => "unconnected",
            NoRouteReason::BeyondDelay => "beyond-delay",
            NoRouteReason::BeyondHops => "beyond-hops",
            NoRouteReason::BeyondBoth => "beyond-both",
        }
    }
}
