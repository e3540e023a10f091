//! Points: node ids and bitcoin keys.

ghost use Rattle.std.specs.Prelude.{◌≡◌, [], ◌∷◌, take, drop, nat_eq, Some};
ghost use Rattle.std.specs.Cmp.{on_total, on_po};
ghost use Rattle.std.specs.Cmp.Rules.{comparing};
ghost use Rattle.std.specs.Cmp.Lexicographic.{pointwise, bytes_decides, slice_cmp, nat_list_cmp_total, texts_ties, texts_po};
ghost use Rattle.std.specs.Int.{w64, from_be_bytes};
ghost use Rattle.std.specs.Ordering.{nat_cmp, on};
ghost use Rattle.std.proofs.Common.{ap, refl, rules};
ghost use Rattle.lgm_wire.specs.Point.{is_lawful};

use std::cmp::Ordering;
use std::hash::{Hash, Hasher};

/// A compressed point: 33 bytes, ordered bytewise (BOLT 1, "Fundamental Types").
#[derive(Clone, Copy, Debug)]
pub struct Point(pub [u8; 33]);

impl Point {
    /// Whether the first byte is 2 or 3, as in every compressed point. Whether the point is on the curve isn't checked:
    /// that is part of the caller's verdict on signatures.
    pub fn lawful(&self) -> bool
        ensures { result ≡ is_lawful self.now }
    {
        matches!(self.0[0], 2 | 3)
    }
}

/// The first eight bytes as a number.
#[inline(always)]
fn front(bytes: &[u8; 33]) -> u64
    ensures { result ≡ from_be_bytes w64 (take 8 bytes.now) }
{
    let [a, b, c, d, e, f, g, h, ..] = *bytes;
    u64::from_be_bytes([a, b, c, d, e, f, g, h])
}

/// The bytewise order. The first eight bytes mostly decide, and are compared as one number.
#[inline(always)]
fn order(first: &[u8; 33], second: &[u8; 33]) -> Ordering
    ensures { result ≡ slice_cmp nat_cmp first.now second.now }
{
    let (x, y) = (front(first), front(second));
    if x < y {
        return Ordering::Less;
    }
    if y < x {
        return Ordering::Greater;
    }
    first.cmp(second)
}

/// Whether the bytes are the same. The first 32 are compared in one step, as they are copied, so a point that was just
/// copied is compared without waiting for the copy to reach the memory.
#[inline(always)]
fn are_same(first: &[u8; 33], second: &[u8; 33]) -> bool
    ensures { result ≡ pointwise nat_eq first.now second.now }
{
    let (Some(x), Some(y)) = (first.first_chunk::<32>(), second.first_chunk::<32>()) else {
        unreachable!();
    };
    (*x == *y) & (first[32] == second[32])
}

impl PartialEq for Point {
    ghost eq = { on (λ p. p.0) (pointwise nat_eq) };

    ghost laws = { Prim.search (comparing, rules) };

    #[inline(always)]
    fn eq(&self, other: &Point) -> bool {
        are_same(&self.0, &other.0)
    }
}

impl Eq for Point {
    ghost laws = { Prim.search rules };
}

impl PartialOrd for Point {
    ghost partial_cmp = { λ a b. Some (slice_cmp nat_cmp a.0 b.0) };

    ghost laws = { on_po (λ p. p.0) texts_po };

    fn partial_cmp(&self, other: &Point) -> Option<Ordering> {
        Some(self.cmp(other))
    }
}

impl Ord for Point {
    ghost cmp = { λ a b. slice_cmp nat_cmp a.0 b.0 };

    ghost total = { on_total (λ p. p.0) nat_list_cmp_total };

    ghost matches_partial_cmp = { λ a b. refl };

    ghost matches_eq = { λ a b. texts_ties a.0 b.0 };

    #[inline(always)]
    fn cmp(&self, other: &Point) -> Ordering {
        order(&self.0, &other.0)
    }
}

/// Only the last 16 bytes are hashed, in one call. They are half of the coordinate, so finding keys that share them
/// takes as long as for any 16 bytes that a hash returns.
impl Hash for Point {
    ghost hash_input = { λ p. take 16 (drop 17 p.0) ∷ [] };

    ghost respects_eq = { λ x y same. ap (λ bytes. take 16 (drop 17 bytes) ∷ []) ((bytes_decides x.0 y.0).0 same) };

    fn hash<H: Hasher>(&self, state: &mut H) {
        state.write(&self.0[17..]);
    }
}
