//! Failure messages.

ghost use Rattle.std.specs.Prelude.{◌≡◌};
ghost use Rattle.lgm_payer.specs.Failures.{kind_of, is_node_failure, is_terms_failure, is_balance, is_far};
ghost use Rattle.lgm_payer.specs.Failures.{is_final_failure, is_channel_failure, is_onion_failure, is_forwarding_failure, may_send};

/// The failure message of BOLT 4 that a part came back with ("Failure Messages").
#[derive(Clone, Copy, Debug, PartialEq, Eq)]
pub struct Failure {
    /// The place of the node that returned it: 1 is the node that the first hop leads to, and 0 the payer.
    pub place: usize,
    /// Its `failure_code`.
    pub code: u16,
    /// Whether the map has other terms of the hop that this node didn't take than when the part was sent, as by the
    /// update that came with the message.
    pub is_renewed: bool,
}

/// How a part ended that hasn't arrived.
#[derive(Clone, Copy, Debug, PartialEq, Eq)]
pub enum Ending {
    /// It failed, and no failure message could be read.
    Unreadable,
    /// It failed with a failure message.
    Failed(Failure),
}

/// What a failure message of a node before the payee speaks of.
#[derive(Clone, Copy, Debug, PartialEq, Eq)]
pub enum FailureKind {
    /// The balance of the next hop: `temporary_channel_failure`.
    Balance,
    /// The node: `temporary_node_failure`, `permanent_node_failure`, `required_node_feature_missing`, and what it says
    /// of the onion.
    Node,
    /// The terms of the next hop: `fee_insufficient`, `incorrect_cltv_expiry`, `amount_below_minimum`, `expiry_too_soon`.
    Terms,
    /// The expiry: `expiry_too_far`.
    Expiry,
    /// The next hop can't be used: all others.
    Channel,
}

const BADONION: u16 = 0x8000;

const PERM: u16 = 0x4000;

const NODE: u16 = 0x2000;

const UPDATE: u16 = 0x1000;

const TEMPORARY_NODE_FAILURE: u16 = NODE + 2;

const PERMANENT_NODE_FAILURE: u16 = PERM + NODE + 2;

const REQUIRED_NODE_FEATURE_MISSING: u16 = PERM + NODE + 3;

const INVALID_ONION_VERSION: u16 = BADONION + PERM + 4;

const INVALID_ONION_HMAC: u16 = BADONION + PERM + 5;

const INVALID_ONION_KEY: u16 = BADONION + PERM + 6;

const TEMPORARY_CHANNEL_FAILURE: u16 = UPDATE + 7;

const PERMANENT_CHANNEL_FAILURE: u16 = PERM + 8;

const REQUIRED_CHANNEL_FEATURE_MISSING: u16 = PERM + 9;

const UNKNOWN_NEXT_PEER: u16 = PERM + 10;

const AMOUNT_BELOW_MINIMUM: u16 = UPDATE + 11;

const FEE_INSUFFICIENT: u16 = UPDATE + 12;

const INCORRECT_CLTV_EXPIRY: u16 = UPDATE + 13;

const EXPIRY_TOO_SOON: u16 = UPDATE + 14;

const INCORRECT_OR_UNKNOWN_PAYMENT_DETAILS: u16 = PERM + 15;

const INCORRECT_PAYMENT_AMOUNT: u16 = PERM + 16;

const FINAL_EXPIRY_TOO_SOON: u16 = 17;

const FINAL_INCORRECT_CLTV_EXPIRY: u16 = 18;

const FINAL_INCORRECT_HTLC_AMOUNT: u16 = 19;

const CHANNEL_DISABLED: u16 = UPDATE + 20;

const EXPIRY_TOO_FAR: u16 = 21;

const INVALID_ONION_PAYLOAD: u16 = PERM + 22;

/// That of a payee that another try may mend.
pub(crate) const MPP_TIMEOUT: u16 = 23;

/// Whether a failure code says that the next node couldn't read the onion.
fn is_onion_failure(code: u16) -> bool
    ensures { result ≡ is_onion_failure code }
{
    code == INVALID_ONION_VERSION || code == INVALID_ONION_HMAC || code == INVALID_ONION_KEY
}

/// Whether a failure code speaks of the node that returned it.
fn is_node_failure(code: u16) -> bool
    ensures { result ≡ is_node_failure code }
{
    code == TEMPORARY_NODE_FAILURE
        || code == PERMANENT_NODE_FAILURE
        || code == REQUIRED_NODE_FEATURE_MISSING
        || code == INVALID_ONION_PAYLOAD
}

/// Whether a failure code speaks of the terms of the next hop.
fn is_terms_failure(code: u16) -> bool
    ensures { result ≡ is_terms_failure code }
{
    code == FEE_INSUFFICIENT
        || code == INCORRECT_CLTV_EXPIRY
        || code == AMOUNT_BELOW_MINIMUM
        || code == EXPIRY_TOO_SOON
}

/// Whether a failure code speaks of the channel to the next node.
fn is_channel_failure(code: u16) -> bool
    ensures { result ≡ is_channel_failure code }
{
    code == TEMPORARY_CHANNEL_FAILURE
        || code == PERMANENT_CHANNEL_FAILURE
        || code == REQUIRED_CHANNEL_FEATURE_MISSING
        || code == UNKNOWN_NEXT_PEER
        || code == CHANNEL_DISABLED
}

/// Whether the payee alone sends a failure code.
fn is_final_failure(code: u16) -> bool
    ensures { result ≡ is_final_failure code }
{
    code == INCORRECT_OR_UNKNOWN_PAYMENT_DETAILS
        || code == INCORRECT_PAYMENT_AMOUNT
        || code == FINAL_EXPIRY_TOO_SOON
        || code == FINAL_INCORRECT_CLTV_EXPIRY
        || code == FINAL_INCORRECT_HTLC_AMOUNT
        || code == MPP_TIMEOUT
}

/// Whether the payee doesn't send a failure code.
fn is_forwarding_failure(code: u16) -> bool
    ensures { result ≡ is_forwarding_failure code }
{
    is_channel_failure(code)
        || is_terms_failure(code)
        || code == EXPIRY_TOO_FAR
        || is_onion_failure(code)
}

/// Whether the payee, or a node before it, may send a failure code (BOLT 4, "Failure Messages"). One that isn't named
/// there may come from any node.
pub(crate) fn may_send(is_payee: bool, code: u16) -> bool
    ensures { result ≡ may_send is_payee code }
{
    if is_payee {
        !is_forwarding_failure(code)
    } else {
        !is_final_failure(code)
    }
}

impl FailureKind {
    /// What a failure code speaks of.
    pub fn of(code: u16) -> FailureKind
        ensures { result ≡ kind_of code }
    {
        if code == TEMPORARY_CHANNEL_FAILURE {
            FailureKind::Balance
        } else if is_node_failure(code) {
            FailureKind::Node
        } else if is_terms_failure(code) {
            FailureKind::Terms
        } else if code == EXPIRY_TOO_FAR {
            FailureKind::Expiry
        } else {
            FailureKind::Channel
        }
    }

    pub(crate) fn is_balance(self) -> bool
        ensures { result ≡ is_balance self }
    {
        matches!(self, FailureKind::Balance)
    }

    /// Whether it is the expiry.
    pub(crate) fn is_far(self) -> bool
        ensures { result ≡ is_far self }
    {
        matches!(self, FailureKind::Expiry)
    }
}
