//! Route parameters: the payment for which a line requests a route.

ghost use Rattle.std.specs.Prelude.{◌≡◌};
ghost use Rattle.lgm_script.specs.Field.{array_of};
ghost use Rattle.lgm_script.specs.RouteParameters.{payment_of};

use crate::grammar::field::{number, number_below, point};
use crate::grammar::fields::Fields;
use lgm_gossip::Point;

/// The payment for which a route is requested. The points are any 33 bytes: that they are nodes of the map isn't
/// checked here.
#[derive(Clone, Copy, Debug, PartialEq, Eq)]
pub struct RouteParameters {
    /// The node that pays.
    pub payer: Point,
    /// The node that is paid.
    pub payee: Point,
    /// What the payee receives, in msat.
    pub amount: u64,
    /// The block height at which the HTLC offered to the payee expires (BOLT 2, "`cltv_expiry_delta` Selection").
    pub expiry: u32,
    /// The payment secret, by which the payee recognizes the payment (BOLT 4, "`payment_data`").
    pub secret: [u8; 32],
}

/// A secret: 32 bytes, each as two hexadecimal digits.
fn secret(digits: &[u8]) -> Option<[u8; 32]>
    ensures { result ≡ array_of 32 digits.now }
{
    lgm_hex::decode_array::<32>(digits).ok()
}

/// A payment: `PAYER PAYEE MSAT EXPIRY SECRET`.
pub fn payment_in(mut fields: Fields<'_>) -> Option<RouteParameters>
    ensures { result ≡ payment_of fields.entry }
{
    let payer = fields.next()?;
    let payee = fields.next()?;
    let amount = fields.next()?;
    let expiry = fields.next()?;
    let secret_digits = fields.next()?;
    fields.end()?;
    Some(RouteParameters {
        payer: point(payer)?,
        payee: point(payee)?,
        amount: number(amount)?,
        expiry: number_below(0x1_0000_0000, expiry)? as u32,
        secret: secret(secret_digits)?,
    })
}
