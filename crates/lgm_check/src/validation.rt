//! Validation of a message without a map.

ghost use Rattle.std.specs.Prelude.{◌≡◌, ◌<◌, ◌⊎◌, ℕ, List, Ok, Err, IfOk, MatchResult, slice_index};
ghost use Rattle.lgm_wire.specs.reading.Reading.{Sees, Gives};
ghost use Rattle.lgm_wire.specs.declared.chain_hash.ChainHash.{ChainHash};
ghost use Rattle.lgm_gossip.specs.Layout.{AnnouncesNothing};
ghost use Rattle.lgm_gossip.specs.Memory.{GivesIf, TakesMemory};
ghost use Rattle.lgm_gossip.specs.reading.MessageReading.{message_at};
ghost use Rattle.lgm_check.specs.declared.evidence.Evidence.{Evidence};
ghost use Rattle.lgm_check.specs.declared.row.Checked.{Checked};
ghost use Rattle.lgm_check.specs.declared.refusal.Refusal.TheVariants.{NoMemory};
ghost use Rattle.lgm_check.specs.CheckedKind.{row_of, Fits};
ghost use Rattle.lgm_check.specs.Accepted.{IsAccepted};
ghost use Rattle.lgm_check.specs.Precheck.{require as requirement, has_lawful_points, are_in_order};
ghost use Rattle.lgm_check.specs.Precheck.{capacity_of, is_all_four, is_private, signer_of};
ghost use Rattle.lgm_check.specs.Precheck.{announced_channel, signed_update, announced_node};
ghost use Rattle.lgm_check.specs.Precheck.{checked_announce, checked_update, checked_node, checked_of};

use crate::evidence::{Evidence, Funding, Sig};
use crate::refusal::Refusal;
use crate::row::{ChannelRow, Checked, CheckedKind, NodeRow, Signer, UpdateRow};
use lgm_gossip::{
    Announce, ChainHash, ChannelUpdate, Layout, NodeAnnounce, Point, decode, layout_of,
};
use std::alloc::Global;

/// The maximum capacity of a channel, in satoshi: all that will ever exist.
pub const MAX_SAT: u64 = 2_100_000_000_000_000;

/// Ok if the test holds, else the refusal.
#[inline(always)]
fn require(holds: bool, refusal: Refusal) -> Result<(), Refusal>
    ensures { result ≡ requirement holds refusal }
{
    if holds { Ok(()) } else { Err(refusal) }
}

/// Whether the node ids and bitcoin keys are well-formed points, by their first byte.
#[inline(always)]
fn has_lawful_points(message: &Announce) -> bool
    ensures { result ≡ has_lawful_points message.now }
{
    message.node_id_1.lawful()
        && message.node_id_2.lawful()
        && message.bitcoin_key_1.lawful()
        && message.bitcoin_key_2.lawful()
}

/// Whether node_id_1 is less than node_id_2 in byte order.
#[inline(always)]
fn are_in_order(message: &Announce) -> bool
    ensures { result ≡ are_in_order message.now }
{
    message.node_id_1.cmp(&message.node_id_2).is_lt()
}

/// The capacity in satoshi, if the output can fund the channel.
#[inline(always)]
fn capacity(funding: Funding) -> Result<u64, Refusal>
    ensures { result ≡ capacity_of funding }
{
    match funding {
        Funding::Unspent(sat) if sat <= MAX_SAT => Ok(sat),
        _ => Err(Refusal::Funding),
    }
}

/// Whether all four signatures are valid.
#[inline(always)]
fn is_all_four(sig: Sig) -> bool
    ensures { result ≡ is_all_four sig }
{
    matches!(sig, Sig::AllFour(true))
}

/// The capacity of a channel in satoshi, from its `channel_announcement`, or the first refusal.
#[tactic(auto, unfolding(crate::specs::Precheck::checked_announce))]
#[inline(always)]
fn announce(chain: &ChainHash, message: &Announce, evidence: &Evidence) -> Result<u64, Refusal>
    ensures { (bytes : List ℕ) → Sees (λ sat. announced_channel message.now sat bytes) result
        (checked_announce chain.now message.now bytes evidence.now) }
{
    require(message.chain_hash == *chain, Refusal::Chain)?;
    require(has_lawful_points(message), Refusal::Point)?;
    require(are_in_order(message), Refusal::NodeOrder)?;
    let sat = capacity(evidence.funding)?;
    require(is_all_four(evidence.sig), Refusal::Signature)?;
    Ok(sat)
}

/// Whether an update must not be forwarded: bit 1 of its message flags, `dont_forward`.
#[inline(always)]
fn is_private(message: &ChannelUpdate) -> bool
    ensures { result ≡ is_private message.now }
{
    message.message_flags / 2 % 2 == 1
}

/// The point that signed.
#[inline(always)]
fn signer(sig: &Sig) -> Result<&Point, Refusal>
    ensures { Sees (λ point. point.now) result (signer_of sig.now) }
{
    match sig {
        Sig::By(point) => Ok(point),
        _ => Err(Refusal::Signature),
    }
}

/// The point that signed a `channel_update`, or the first refusal.
#[tactic(auto, unfolding(crate::specs::Precheck::checked_update))]
#[inline(always)]
fn update<'a>(
    chain: &ChainHash,
    message: &ChannelUpdate,
    evidence: &'a Evidence,
) -> Result<Signer<'a>, Refusal>
    ensures { (bytes : List ℕ) → Sees (λ signer. signed_update message.now signer bytes) result
        (checked_update chain.now message.now bytes evidence.now) }
{
    require(message.chain_hash == *chain, Refusal::Chain)?;
    require(!is_private(message), Refusal::Private)?;
    Ok(Signer::new(signer(&evidence.sig)?))
}

/// Whether a `node_announcement` is accepted, or the first refusal.
#[tactic(auto, unfolding(crate::specs::Precheck::checked_node))]
#[inline(always)]
fn node(message: &NodeAnnounce, evidence: &Evidence) -> Result<(), Refusal>
    ensures { (bytes : List ℕ) → Sees (λ _. announced_node message.now bytes) result
        (checked_node message.now bytes evidence.now) }
{
    require(message.node_id.lawful(), Refusal::Point)?;
    let signer = signer(&evidence.sig)?;
    require(*signer == message.node_id, Refusal::Signature)
}

/// Why bytes that announce nothing are refused.
#[tactic(auto, unfolding(crate::specs::Precheck::checked_of))]
fn other(alloc: Global, chain: &ChainHash, bytes: &[u8], evidence: &Evidence) -> Refusal
    requires { AnnouncesNothing (message_at bytes.now) }
    ensures { (TakesMemory bytes.now × (result ≡ NoMemory))
        ⊎ (checked_of chain.now bytes.now evidence.now ≡ Err result) }
{
    match decode(alloc, bytes) {
        Ok(_) => Refusal::NotGossip,
        Err(fault) => Refusal::from(fault),
    }
}

/// What the row of any bytes has in addition to them, or the first refusal.
#[tactic(auto, unfolding(crate::specs::Precheck::checked_of))]
#[inline(always)]
fn check_kind<'a>(
    alloc: Global,
    chain: &ChainHash,
    bytes: &[u8],
    evidence: &'a Evidence,
) -> Result<CheckedKind<'a>, Refusal>
    ensures exact { GivesIf (TakesMemory bytes.now) Refusal.NoMemory (λ kind. row_of kind bytes.now) result
        (checked_of chain.now bytes.now evidence.now) }
    ensures fits { IfOk result (λ kind. Fits kind bytes.now) }
{
    match layout_of(bytes) {
        Layout::Announce => {
            let sat = announce(chain, &Announce::in_bytes(bytes), evidence)?;
            Ok(CheckedKind::Channel(sat))
        }
        Layout::Update => {
            let signer = update(chain, &ChannelUpdate::in_bytes(bytes), evidence)?;
            Ok(CheckedKind::Update(signer))
        }
        Layout::Node => {
            node(&NodeAnnounce::in_bytes(bytes), evidence)?;
            Ok(CheckedKind::Node)
        }
        Layout::Other => Err(other(alloc, chain, bytes, evidence)),
    }
}

/// The row of the bytes and of what was found in addition to them.
fn row<'a>(kind: CheckedKind, bytes: &'a [u8]) -> Checked<'a>
    requires { Fits kind bytes.now }
    ensures { result ≡ row_of kind.entry bytes.now }
{
    match kind {
        CheckedKind::Channel(sat) => Checked::Channel(ChannelRow::in_bytes(bytes, sat)),
        CheckedKind::Update(signer) => Checked::Update(UpdateRow::in_bytes(bytes), *signer.point()),
        CheckedKind::Node => Checked::Node(NodeRow::in_bytes(bytes)),
    }
}

/// The row of any message, or its first refusal.
#[inline(always)]
fn check<'a>(
    alloc: Global,
    chain: &ChainHash,
    bytes: &'a [u8],
    evidence: &Evidence,
) -> Result<Checked<'a>, Refusal>
    ensures { GivesIf (TakesMemory bytes.now) Refusal.NoMemory (λ made. made) result
        (checked_of chain.now bytes.now evidence.now) }
{
    Ok(row(check_kind(alloc, chain, bytes, evidence)?, bytes))
}

/// The row that a message would add to a map, or the first refusal, in the order of their numbers up to 10 (BOLT 7,
/// "The channel_announcement Message", "The node_announcement Message", "The channel_update Message").
///
/// It is a function of the chain, the bytes and the evidence alone. The refusals are 1 `malformed`, 2 `unknown-even`
/// and 3 `ignored` for bytes that aren't a message, and 4 `not-gossip` for a query or a reply. Then for a channel
/// announcement 5 `chain`, 6 `point`, 7 `node-order`, 9 `funding` and 10 `signature`, for an update 5 `chain`, 8
/// `private` and 10 `signature` (no node's), for a node announcement 6 `point` and 10 `signature` (not the node's). Any
/// bytes of any length are allowed.
///
/// The row borrows the bytes. `NoMemory` is no verdict on the message: it comes only if what [`decode`] stores of a
/// query or a reply couldn't be allocated. For an announcement or an update nothing is allocated.
#[inline(always)]
pub fn precheck<'a>(
    alloc: Global,
    chain: &ChainHash,
    bytes: &'a [u8],
    evidence: &Evidence,
) -> Result<Checked<'a>, Refusal>
    // A message is accepted if and only if it is to be accepted, as this row.
    ensures accepted { IfOk result (λ made. IsAccepted chain.now bytes.now evidence.now made) }
    ensures only { (made : Checked) → IsAccepted chain.now bytes.now evidence.now made
        → MatchResult result (λ found. found ≡ made) (λ e. e ≡ Refusal.NoMemory) }

    // The row, or the first refusal in the order.
    ensures exact { Gives Refusal.NoMemory (λ made. made) result
        (checked_of chain.now bytes.now evidence.now) }

    // Out of memory comes only if decoding allocates.
    ensures memory { Sees (λ made. made) result (checked_of chain.now bytes.now evidence.now)
        ⊎ TakesMemory bytes.now }
{
    check(alloc, chain, bytes, evidence)
}

/// Validates a message as [`precheck`] does, and returns what its row has in addition to the bytes.
///
/// The refusals are those of `precheck`. No row is made, so this is faster for a caller that has the bytes.
#[inline(always)]
pub fn precheck_kind<'a>(
    alloc: Global,
    chain: &ChainHash,
    bytes: &[u8],
    evidence: &'a Evidence,
) -> Result<CheckedKind<'a>, Refusal>
    // A message is accepted only if it is to be accepted, as the row that it and the bytes make.
    ensures accepted { IfOk result (λ kind. IsAccepted chain.now bytes.now evidence.now (row_of kind bytes.now)) }
    ensures fits { IfOk result (λ kind. Fits kind bytes.now) }

    // That row, or the first refusal in the order.
    ensures exact { Gives Refusal.NoMemory (λ kind. row_of kind bytes.now) result
        (checked_of chain.now bytes.now evidence.now) }

    // Out of memory comes only if decoding allocates.
    ensures memory { Sees (λ kind. row_of kind bytes.now) result (checked_of chain.now bytes.now evidence.now)
        ⊎ TakesMemory bytes.now }
{
    check_kind(alloc, chain, bytes, evidence)
}

/// A law of acceptance, stated by the contract; the call does nothing.
///
/// Testing in the order of the refusals returns a row if and only if the message is to be accepted, as one of three
/// types, and the row is that of the message: its fields, its bytes, and what the evidence says about it.
pub fn accepted_exactly()
    ensures accepted { (chain : ChainHash) (bytes : List ℕ) (evidence : Evidence) (made : Checked)
        → ((i : ℕ) → slice_index bytes i < 256)
        → checked_of chain bytes evidence ≡ Ok made → IsAccepted chain bytes evidence made }
    ensures only { (chain : ChainHash) (bytes : List ℕ) (evidence : Evidence) (made : Checked)
        → IsAccepted chain bytes evidence made → checked_of chain bytes evidence ≡ Ok made }
{}
