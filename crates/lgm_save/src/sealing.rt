//! Bytes with a checksum behind them.

ghost use Rattle.std.specs.Prelude.{◌≡◌, ◌≢◌, ◌++◌, ℕ, List, IfSome, IsNone, OnOk};
ghost use Rattle.lgm_save.specs.Saved.{sealed};

use crate::checksum::Sums;
use crate::numbers::in_eight;
use crate::reader::CHECKSUM;
use crate::strip::{cut, strip};
use std::alloc::AllocError;

/// Adds the checksum of bytes behind them, sixteen more. Out of memory may leave eight of them there.
pub fn seal(bytes: &mut Vec<u8>) -> Result<(), AllocError>
    ensures { OnOk result (bytes.new.items ≡ sealed bytes.old.items) }
{
    let sums = Sums::of(bytes.as_slice());
    bytes.extend_from_slice(&in_eight(sums.first))?;
    bytes.extend_from_slice(&in_eight(sums.second))?;
    Ok(())
}

/// The bytes before their checksum, if it is theirs.
fn unsealed(bytes: &[u8]) -> Option<&[u8]>
    ensures some { IfSome result (λ content. bytes.now ≡ sealed content.now) }
    ensures none { IsNone result → (content : List ℕ) → bytes.now ≢ sealed content }
{
    let (content, sums) = cut(bytes, bytes.len().checked_sub(CHECKSUM)?)?;
    if !Sums::of(content).are_in(sums) {
        return None;
    }
    Some(content)
}

/// The bytes between an opening and a checksum, if both are theirs.
pub fn body_behind<'a>(opening: &[u8], bytes: &'a [u8]) -> Option<&'a [u8]>
    ensures some { IfSome result (λ body. bytes.now ≡ sealed (opening.now ++ body.now)) }
    ensures none { IsNone result → (body : List ℕ) → bytes.now ≢ sealed (opening.now ++ body) }
{
    let content = unsealed(bytes)?;
    strip(content, opening)
}
