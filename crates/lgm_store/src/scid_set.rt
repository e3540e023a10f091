//! Sets of channel ids.

ghost use Rattle.std.specs.Prelude.{◌≡◌, ◌∷◌, ◌++◌, [], IfOk, OnOk, OnErr, length, ◌==◌, filter};
ghost use Rattle.lgm_store.specs.inner.ChannelsByNode.{with_id, without_id};
ghost use Rattle.lgm_store.specs.inner.ScidSet.{collected, is_other};

use lgm_gossip::Scid;
use std::alloc::{AllocError, Global};
use std::collections::BTreeSet;
use std::marker::Model;

/// A set of channel ids. Contracts see them ascending.
///
/// They are stored as they arrive: adding one takes constant time, removing one takes a pass over all. They are sorted
/// when they are read, which only a ban requires. A set of one, as for most nodes, needs no allocation.
#[derive(Drop)]
pub(crate) struct ScidSet {
    ids: OneOrMany,
}

/// Where the ids are stored.
#[derive(Drop)]
enum OneOrMany {
    /// A single id.
    One(Scid),
    /// Any number of ids, in the order in which they were added. An id that was added twice is listed twice.
    Many(Vec<Scid>),
}

impl Model for ScidSet {
    ghost use Rattle.std.specs.Prelude.{ℕ, List};
    ghost use Rattle.lgm_store.specs.inner.ScidSet.{ids_in};

    ghost Value = { List ℕ };

    ghost view = { λ s. ids_in s.ids };
}

impl ScidSet {
    /// A set of one id. Allocates nothing.
    pub(crate) fn of(scid: Scid) -> ScidSet
        ensures { result ≡ scid ∷ [] }
    {
        ScidSet {
            ids: OneOrMany::One(scid),
        }
    }

    pub(crate) fn is_empty(&self) -> bool
        ensures { result ≡ (length self.now == 0) }
    {
        match &self.ids {
            OneOrMany::One(_) => false,
            OneOrMany::Many(scids) => scids.as_slice().is_empty(),
        }
    }

    /// Adds an id. Out of memory leaves the set unchanged.
    pub(crate) fn insert(&mut self, alloc: Global, scid: Scid) -> Result<(), AllocError>
        ensures ok { OnOk result (self.new ≡ with_id self.old scid) }
        ensures err { OnErr result (self.new ≡ self.old) }
    {
        match &mut self.ids {
            OneOrMany::One(own) => {
                let both = both(alloc, *own, scid)?;
                self.ids = OneOrMany::Many(both);
            }
            OneOrMany::Many(scids) => scids.push(scid)?,
        }
        Ok(())
    }

    pub(crate) fn remove(&mut self, alloc: Global, scid: Scid)
        ensures { self.new ≡ without_id self.old scid }
    {
        match &mut self.ids {
            OneOrMany::One(own) => {
                if scid.cmp(own).is_eq() {
                    self.ids = OneOrMany::Many(Vec::new(alloc));
                }
            }
            OneOrMany::Many(scids) => discard(scids, scid),
        }
    }

    /// Whether its id is stored in its place. No contract depends on it.
    pub(crate) fn is_single(&self) -> bool {
        matches!(self.ids, OneOrMany::One(_))
    }

    /// The id that was added last, as far as the set knows.
    pub(crate) fn last(&self) -> Option<Scid> {
        match &self.ids {
            OneOrMany::One(own) => Some(*own),
            OneOrMany::Many(scids) => scids.as_slice().last().copied(),
        }
    }

    /// Appends the ids to a vector, ascending.
    pub(crate) fn gather(&self, alloc: Global, scids: &mut Vec<Scid>) -> Result<(), AllocError>
        ensures { OnOk result (scids.new.items ≡ scids.old.items ++ self.now) }
    {
        match &self.ids {
            OneOrMany::One(own) => scids.push(*own)?,
            OneOrMany::Many(own) => gather(&sorted(alloc, own.as_slice())?, scids)?,
        }
        Ok(())
    }
}

/// Two ids, with room for two more.
fn both(alloc: Global, first: Scid, second: Scid) -> Result<Vec<Scid>, AllocError>
    ensures { IfOk result (λ both. both.items ≡ first ∷ second ∷ []) }
{
    let mut both = Vec::with_capacity(alloc, 4)?;
    both.push(first)?;
    both.push(second)?;
    Ok(both)
}

/// Removes an id, wherever it stands.
fn discard(scids: &mut Vec<Scid>, scid: Scid)
    ensures { scids.new.items ≡ filter (is_other scid) scids.old.items }
{
    scids.retain(
        |own: &Scid| -> bool
            ensures { result ≡ is_other scid own.now }
        { *own != scid },
    );
}

/// The set of ids.
fn sorted(alloc: Global, scids: &[Scid]) -> Result<BTreeSet<Scid>, AllocError>
    ensures { IfOk result (λ set. set.keys ≡ collected [] scids.now) }
{
    let mut set = BTreeSet::new(alloc);
    for scid in scids {
        set.insert(*scid)?;
    }
    Ok(set)
}

/// Appends the ids of a set to a vector.
fn gather(own: &BTreeSet<Scid>, scids: &mut Vec<Scid>) -> Result<(), AllocError>
    ensures { OnOk result (scids.new.items ≡ scids.old.items ++ own.now.keys) }
{
    for scid in own {
        scids.push(*scid)?;
    }
    Ok(())
}

impl Clone for ScidSet {
    ghost is_clone = { λ set copy. copy ≡ set };

    fn clone(&self) -> Result<ScidSet, AllocError> {
        let ids = match &self.ids {
            OneOrMany::One(scid) => OneOrMany::One(*scid),
            OneOrMany::Many(scids) => OneOrMany::Many(scids.clone()?),
        };
        Ok(ScidSet { ids })
    }
}
