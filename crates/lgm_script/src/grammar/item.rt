//! Items: what a line offers to the map.

ghost use Rattle.std.specs.Prelude.{◌≡◌, ◌∷◌, ◌/◌, [], Some, None, length, IfOk, if◌then◌else◌};
ghost use Rattle.lgm_script.specs.Field.{fields_of};
ghost use Rattle.lgm_script.specs.Item.{bytes_of, sig_of, funding_of, evidence_of};
ghost use Rattle.lgm_script.specs.Item.{gossip_of, scid_of, close_of, item_of, item_spelled};

use crate::grammar::field::{number, number_below, point};
use crate::grammar::fields::{Fields, cut_last};
use hex::FromHexError;
use lgm_check::{Evidence, Funding, Sig};
use lgm_gossip::{Bytes, Scid};
use std::alloc::{AllocError, Global};

/// What is offered to the map, with the caller's verdicts on it.
#[derive(Debug, Drop)]
pub enum Item {
    /// The bytes of a gossip message, and the verdicts on it.
    Gossip(Bytes, Evidence),
    /// The close of a channel whose funding output is spent.
    Close(Scid),
}

/// An item as a line spells it: the digits of a message aren't decoded yet.
#[derive(Debug, Drop)]
pub enum ItemForm<'a> {
    /// The digits of a gossip message, which may be no digits at all, and the verdicts on it.
    Message(&'a [u8], Evidence),
    /// The close of a channel whose funding output is spent.
    Close(Scid),
}

/// Decodes hexadecimal digits, at least two, into half as many bytes. If it returns false they aren't that, and what was
/// written is unspecified.
#[inline(always)]
pub fn decode_digits(digits: &[u8], out: &mut [u8]) -> bool
    requires { length out.old ≡ length digits.now / 2 }
    ensures { bytes_of digits.now ≡ (if result then Some out.new else None) }
{
    !digits.is_empty() && lgm_hex::decode_to_slice(digits, out).is_ok()
}

/// Decodes hexadecimal digits, at least two.
pub fn bytes(alloc: Global, digits: &[u8]) -> Result<Option<Bytes>, AllocError>
    ensures { IfOk result (λ bytes. bytes ≡ bytes_of digits.now) }
{
    if digits.is_empty() {
        return Ok(None);
    }
    let mut decoded = Vec::new(alloc);
    match lgm_hex::decode_into(&mut decoded, digits) {
        Ok(()) => Ok(Some(Bytes::from_vec(decoded))),
        Err(FromHexError::OutOfMemory) => Err(AllocError),
        Err(_) => Ok(None),
    }
}

/// A verdict on signatures: `all`, `not-all`, `nobody` or the point that signed.
#[inline(always)]
fn sig(word: &[u8]) -> Option<Sig>
    ensures { result ≡ sig_of word.now }
{
    if word == b"all".as_slice() {
        return Some(Sig::AllFour(true));
    }
    if word == b"not-all".as_slice() {
        return Some(Sig::AllFour(false));
    }
    if word == b"nobody".as_slice() {
        return Some(Sig::Nobody);
    }
    Some(Sig::By(point(word)?))
}

/// A verdict on a funding output: `spent`, `wrong`, `-` or its satoshi.
#[inline(always)]
fn funding(word: &[u8]) -> Option<Funding>
    ensures { result ≡ funding_of word.now }
{
    if word == b"spent".as_slice() {
        return Some(Funding::Spent);
    }
    if word == b"wrong".as_slice() {
        return Some(Funding::Wrong);
    }
    if word == b"-".as_slice() {
        return Some(Funding::NotAsked);
    }
    Some(Funding::Unspent(number(word)?))
}

/// The verdicts on a message: `SIG` and `FUNDING`.
#[inline(always)]
fn evidence(signer: &[u8], output: &[u8]) -> Option<Evidence>
    ensures { result ≡ evidence_of (signer.now ∷ output.now ∷ []) }
{
    Some(Evidence {
        sig: sig(signer)?,
        funding: funding(output)?,
    })
}

/// The digits of an offered message, and the verdicts on it: `HEX SIG FUNDING`. Since there are many digits, the text is
/// split from its end.
#[inline(always)]
pub fn message(text: &[u8]) -> Option<ItemForm<'_>>
    ensures { gossip_of (fields_of 32 text.now) ≡ item_spelled result }
{
    let Some((front, output)) = cut_last(b' ', text) else {
        return None;
    };
    let Some((digits, signer)) = cut_last(b' ', front) else {
        return None;
    };
    let Some(evidence) = evidence(signer, output) else {
        return None;
    };
    Some(ItemForm::Message(digits, evidence))
}

/// A channel id, from its block, index and output.
fn scid(mut fields: Fields<'_>) -> Option<Scid>
    ensures { result ≡ scid_of fields.entry }
{
    let block = fields.next()?;
    let index = fields.next()?;
    let output = fields.next()?;
    fields.end()?;
    let block = number_below(0x100_0000, block)?;
    let index = number_below(0x100_0000, index)?;
    let output = number_below(0x1_0000, output)?;
    Some(Scid::new(block as u32, index as u32, output as u16))
}

/// A close: `SCID`, which is `BLOCKxINDEXxOUTPUT`.
pub fn close<'a>(mut fields: Fields<'a>) -> Option<ItemForm<'a>>
    ensures { close_of fields.entry ≡ item_spelled result }
{
    let name = fields.next()?;
    fields.end()?;
    Some(ItemForm::Close(scid(Fields::new(b'x', name))?))
}

/// The item of a form, if its digits are digits.
pub fn decoded(alloc: Global, form: &ItemForm<'_>) -> Result<Option<Item>, AllocError>
    ensures { IfOk result (λ item. item ≡ item_of form.now) }
{
    match form {
        ItemForm::Message(digits, evidence) => match bytes(alloc, digits)? {
            Some(bytes) => Ok(Some(Item::Gossip(bytes, *evidence))),
            None => Ok(None),
        },
        ItemForm::Close(scid) => Ok(Some(Item::Close(*scid))),
    }
}
