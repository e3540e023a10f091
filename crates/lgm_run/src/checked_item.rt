//! Checking items in parallel.

ghost use Rattle.std.specs.Prelude.{◌≡◌, ◌/◌, length, IfOk};
ghost use Rattle.std.specs.List.{AllZip};
ghost use Rattle.lgm_script.specs.Item.{message_of};
ghost use Rattle.lgm_script.specs.Command.{item_in};
ghost use Rattle.lgm_run.specs.inner.CheckedItem.{IsCheckOf};

use crate::context::Context;
use lgm_check::{Evidence, Refusal};
use lgm_gossip::{ChainHash, Scid};
use lgm_par::Gate;
use lgm_script::{Group, ItemForm, LineForm, decode_digits};
use lgm_store::CheckedMessage;
use std::alloc::{AllocError, Global};
use std::thread::Threads;

/// An item that passed its check, which needs no map.
#[derive(Drop)]
pub enum CheckedItem {
    /// A message that passed all checks without a map, with its row stored.
    Message(CheckedMessage),
    /// The close of a channel.
    Close(Scid),
}

/// Decodes the digits of a message into half as many bytes, and checks it, if they are digits.
#[inline(always)]
fn check_digits(
    alloc: Global,
    chain: &ChainHash,
    digits: &[u8],
    evidence: &Evidence,
    room: &mut [u8],
) -> Option<Result<CheckedItem, Refusal>>
    requires { length room.old ≡ length digits.now / 2 }
    ensures { IsCheckOf chain.now (message_of digits.now evidence.now) result }
{
    if !decode_digits(digits, room) {
        return None;
    }
    match CheckedMessage::precheck(alloc, chain, room, evidence) {
        Ok(message) => Some(Ok(CheckedItem::Message(message))),
        Err(refusal) => Some(Err(refusal)),
    }
}

/// The length, in bytes, up to which a message is decoded on the stack.
const SHORT: usize = 512;

/// Decodes the digits of a message, and checks it, if they are digits. Only a long message is decoded into an
/// allocation.
fn check_message(
    alloc: Global,
    chain: &ChainHash,
    digits: &[u8],
    evidence: &Evidence,
) -> Option<Result<CheckedItem, Refusal>>
    ensures { IsCheckOf chain.now (message_of digits.now evidence.now) result }
{
    let len = digits.len() / 2;
    if len <= SHORT {
        let mut room = [0; SHORT];
        return check_digits(alloc, chain, digits, evidence, &mut room[..len]);
    }
    let mut room = Vec::new(alloc);
    if room.resize(len, 0).is_err() {
        return Some(Err(Refusal::NoMemory));
    }
    check_digits(alloc, chain, digits, evidence, room.as_mut_slice())
}

/// Checks the item that a line offers: none if it is malformed. `NoMemory` is no verdict on the item.
fn check_line(
    alloc: Global,
    chain: &ChainHash,
    line: &LineForm<'_>,
) -> Option<Result<CheckedItem, Refusal>>
    ensures { IsCheckOf chain.now (item_in line.now) result }
{
    match &line.item() {
        Some(ItemForm::Message(digits, evidence)) => check_message(alloc, chain, digits, evidence),
        Some(ItemForm::Close(scid)) => Some(Ok(CheckedItem::Close(*scid))),
        None => None,
    }
}

/// The number of lines of which each may be a chunk of its own.
const FEW: usize = 64;

/// The length of text, in bytes, that is worth one more worker: checking it takes longer than starting a thread.
const SHARE: usize = 131_072;

/// Checks the items of a group, in chunks in parallel: of a line each if they are few, else in two, and one more for each
/// [`SHARE`] of text.
pub fn check_lines<Rt: Threads + Sync, G: Gate>(
    context: &Context<'_, Rt, G>,
    group: &Group<'_>,
) -> Result<Vec<Option<Result<CheckedItem, Refusal>>>, AllocError>
    ensures { IfOk result (λ all. AllZip (λ request item. IsCheckOf context.now.chain (item_in request) item)
        group.now.lines.items all.items) }
{
    let alloc = context.pool.alloc;
    let chain = &context.chain;
    let lines = group.lines.as_slice();
    let most = if lines.len() <= FEW {
        FEW
    } else {
        group.len / SHARE + 2
    };
    let pool = context.pool.at_most(most);
    pool.map(lines, &|line| check_line(alloc, chain, line))
}
