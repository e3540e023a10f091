//! What became of payments.

ghost use Rattle.std.specs.Prelude.{◌≡◌};
ghost use Rattle.lgm_payer.specs.Payments.{is_paid_at};

/// What became of a payment.
#[derive(Clone, Copy, Debug, PartialEq, Eq)]
pub enum Stage {
    /// Parts may be sent.
    Open,
    /// Nothing more is sent. What is under way is waited for.
    Abandoned,
    /// The payee took the whole.
    Paid,
}

impl Stage {
    /// Whether the payee took the whole.
    pub fn is_paid(self) -> bool
        ensures { result ≡ is_paid_at self }
    {
        matches!(self, Stage::Paid)
    }
}
