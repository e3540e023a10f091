//! What is under way.

ghost use Rattle.std.specs.Prelude.{◌≡◌, ◌++◌, IfOk, OnOk};
ghost use Rattle.std.specs.List.{flat_map};
ghost use Rattle.lgm_payer.specs.Parts.{held_hops};
ghost use Rattle.lgm_payer.specs.UnderWay.{hops_under_way, all_under_way, hops_since, all_since};

use crate::part::Part;
use crate::payment::Payment;
use lgm_graph::Hop;
use std::alloc::{AllocError, Global};

/// Adds the hops of a part, unless it failed. Out of memory adds nothing.
fn add_held(busy: &mut Vec<Hop>, part: &Part) -> Result<(), AllocError>
    ensures { OnOk result (busy.new.items ≡ busy.old.items ++ held_hops part.now) }
{
    if part.is_held() {
        busy.extend_from_slice(part.route.as_slice())?;
    }
    Ok(())
}

/// Adds those of some parts. Out of memory leaves some added.
fn add_all_held(busy: &mut Vec<Hop>, parts: &[Part]) -> Result<(), AllocError>
    ensures { OnOk result (busy.new.items ≡ busy.old.items ++ flat_map held_hops parts.now) }
{
    for part in parts {
        add_held(busy, part)?;
    }
    Ok(())
}

/// Adds the hops of a payment's parts that are under way.
fn add_under_way(busy: &mut Vec<Hop>, payment: &Payment) -> Result<(), AllocError>
    ensures { OnOk result (busy.new.items ≡ busy.old.items ++ hops_under_way payment.now) }
{
    if !payment.is_paid() {
        add_all_held(busy, payment.parts())?;
    }
    Ok(())
}

/// The hops of all parts that are under way, of all payments.
pub(crate) fn all_under_way(alloc: Global, payments: &[Payment]) -> Result<Vec<Hop>, AllocError>
    ensures { IfOk result (λ busy. busy.items ≡ all_under_way payments.now) }
{
    let mut busy = Vec::new(alloc);
    for payment in payments {
        add_under_way(&mut busy, payment)?;
    }
    Ok(busy)
}

/// Adds the hops of a part of a number or a later one, unless it failed.
fn add_since(number: u64, since: &mut Vec<Hop>, part: &Part) -> Result<(), AllocError>
    ensures { OnOk result (since.new.items ≡ since.old.items ++ hops_since number part.now) }
{
    if number <= part.number && part.is_held() {
        since.extend_from_slice(part.route.as_slice())?;
    }
    Ok(())
}

/// Adds those of some parts.
fn add_all_since(number: u64, since: &mut Vec<Hop>, parts: &[Part]) -> Result<(), AllocError>
    ensures { OnOk result (since.new.items ≡ since.old.items ++ flat_map (hops_since number) parts.now) }
{
    for part in parts {
        add_since(number, since, part)?;
    }
    Ok(())
}

/// The hops of all parts of a number or a later one that didn't fail, of all payments.
pub(crate) fn all_since(
    alloc: Global,
    number: u64,
    payments: &[Payment],
) -> Result<Vec<Hop>, AllocError>
    ensures { IfOk result (λ since. since.items ≡ all_since number payments.now) }
{
    let mut since = Vec::new(alloc);
    for payment in payments {
        add_all_since(number, &mut since, payment.parts())?;
    }
    Ok(since)
}
