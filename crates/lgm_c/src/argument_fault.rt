//! Which argument of a call is wrong.

ghost use Rattle.std.specs.Prelude.{◌≡◌};
ghost use Rattle.lgm_c.specs.Arguments.{argument_number};

/// Which argument of a call is wrong, and why. Each has a number.
#[derive(Clone, Copy, Debug, PartialEq, Eq)]
pub(crate) enum ArgumentFault {
    /// 110: the verdict on signatures isn't 0 to 3.
    Sig,
    /// 111: the verdict on a funding output isn't 0 to 3.
    Funding,
    /// 112: more than 100,000 edges.
    Edges,
    /// 113: more than 300,000 limits.
    Limits,
    /// 114: the maximum of an edge is 0.
    Maximum,
    /// 115: a map that changes, where a published one is to be shared.
    Published,
    /// 116: hops that are no route.
    Hops,
    /// 117: the type of a record is below 65,536.
    RecordType,
    /// 118: the type of a record isn't above the one before.
    RecordOrder,
    /// 119: payloads that don't fit an onion packet.
    Payloads,
    /// 120: the number of a channel's message isn't 0, 1 or 2.
    Which,
}

impl ArgumentFault {
    /// Its number, 110 to 120.
    pub(crate) fn number(self) -> u32
        ensures { result ≡ argument_number self }
    {
        match self {
            ArgumentFault::Sig => 110,
            ArgumentFault::Funding => 111,
            ArgumentFault::Edges => 112,
            ArgumentFault::Limits => 113,
            ArgumentFault::Maximum => 114,
            ArgumentFault::Published => 115,
            ArgumentFault::Hops => 116,
            ArgumentFault::RecordType => 117,
            ArgumentFault::RecordOrder => 118,
            ArgumentFault::Payloads => 119,
            ArgumentFault::Which => 120,
        }
    }
}
