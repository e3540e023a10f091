//! The channels of each node.

ghost use Rattle.std.specs.Prelude.{◌≡◌, ◌++◌, ℕ, [], List, None, is_some, IfOk, IfNone, IfSome, OnOk, OnErr};
ghost use Rattle.lgm_wire.specs.declared.point.Point.{Point};
ghost use Rattle.lgm_store.specs.inner.ChannelsByNode.{entry_of, list_at, with_id, without_id};
ghost use Rattle.lgm_store.specs.inner.ChannelsByNode.{changed, Lacks, Sets, IsSame, Lists, IsPlaceOf, MovesLastAlone};

use crate::lookahead::lookup::NodeKey;
use crate::lookahead::lookup_cache::{LookupCache, NO_GUESS, unless};
use crate::scid_set::ScidSet;
use crate::seed::Seed;
use crate::slot_table::{Key, is_sparse};
use indexmap::IndexMap;
use lgm_gossip::{Point, Scid};
use std::alloc::{AllocError, Global};
use std::marker::Model;

/// The ids of the channels of each node. A point has an entry if and only if a channel ends at it.
///
/// The hash table is keyed by a seed, since strangers choose the points. A lookup cache in front spares most lookups its
/// hash.
#[derive(Drop)]
pub(crate) struct ChannelsByNode {
    alloc: Global,
    lists: IndexMap<Point, ScidSet, Seed>,
    /// In front of the hash table. No contract depends on it.
    cache: LookupCache,
}

impl Model for ChannelsByNode {
    ghost use Rattle.std.specs.Prelude.{ℕ, List};
    ghost use Rattle.lgm_wire.specs.declared.point.Point.{Point};

    ghost Value = { List (Point × List ℕ) };

    ghost view = { λ e. e.lists.entries };
}

impl ChannelsByNode {
    /// No channels. Points are hashed by the seed. Allocates nothing.
    pub(crate) fn new(alloc: Global, seed: Seed) -> Result<ChannelsByNode, AllocError>
        ensures { IfOk result (λ ends. ends ≡ []) }
    {
        Ok(ChannelsByNode {
            alloc,
            lists: IndexMap::with_hasher(alloc, seed),
            cache: LookupCache::new(alloc),
        })
    }

    /// The seed by which the points are hashed.
    pub(crate) fn seed(&self) -> Seed {
        *self.lists.hasher()
    }

    /// Whether a channel ends at the point.
    pub(crate) fn contains(&self, point: &Point) -> bool
        ensures { result ≡ is_some (entry_of self.now point.now) }
    {
        place_of(&self.lists, self.cache.guess(point.cache_key()), point).is_some()
    }

    /// The place that the cache has for a node's list, or one that is too large.
    #[inline(always)]
    pub(crate) fn raw_guess(&self, key: NodeKey) -> usize {
        self.cache.raw_guess(key.front())
    }

    /// The place, unless it is hardly that of the node's list. The point and where its ids are is then in the processor's
    /// cache.
    #[inline(always)]
    pub(crate) fn prefetch(&self, place: usize, key: NodeKey) -> usize {
        match self.lists.get_index(place) {
            Some((own, list)) => unless(!key.is_of(own) & list.is_single(), place),
            None => NO_GUESS,
        }
    }

    /// The place, unless the list there has a channel already, as far as it looks. What adding that reads is then in the
    /// processor's cache.
    #[inline(always)]
    pub(crate) fn prefetch_ids(&self, place: usize, scid: Scid) -> usize {
        match self.lists.get_index(place) {
            Some((_, list)) => unless(list.last() == Some(scid), place),
            None => NO_GUESS,
        }
    }

    /// Appends the ids of a point's channels, ascending.
    pub(crate) fn gather(&self, point: &Point, scids: &mut Vec<Scid>) -> Result<(), AllocError>
        ensures { OnOk result (scids.new.items ≡ scids.old.items ++ list_at self.now point.now) }
    {
        if let Some(list) = self.lists.get(point) {
            list.gather(self.alloc, scids)?;
        }
        Ok(())
    }

    /// Adds a channel to the lists of its two nodes. Out of memory leaves all lists unchanged, if none had the id.
    pub(crate) fn add(&mut self, first: Point, second: Point, scid: Scid) -> Result<(), AllocError>
        ensures ok { OnOk result ((ids : Point → List ℕ) → Lists self.old ids
            → Lists self.new (changed (λ list. with_id list scid) ids first second)) }
        ensures err { OnErr result
            ((ids : Point → List ℕ) → Lists self.old ids → Lacks ids scid → Lists self.new ids) }
    {
        self.add_one(first, scid)?;
        if second == first {
            return Ok(());
        }
        let added = self.add_one(second, scid);
        if added.is_err() {
            self.remove_one(&first, scid);
        }
        added
    }

    /// Removes a channel from the lists of its two nodes.
    pub(crate) fn remove(&mut self, first: &Point, second: &Point, scid: Scid)
        ensures { (ids : Point → List ℕ) → Lists self.old ids
            → Lists self.new (changed (λ list. without_id list scid) ids first.now second.now) }
    {
        self.remove_one(first, scid);
        if second != first {
            self.remove_one(second, scid);
        }
    }

    /// A copy, with the room of its points if most of the room is vacant.
    pub(crate) fn copy(&self) -> Result<ChannelsByNode, AllocError>
        ensures { IfOk result (λ copy. copy ≡ self.now) }
    {
        let mut lists = self.lists.clone()?;
        let cache = if is_sparse(lists.capacity(), lists.len()) {
            lists.shrink_to_fit();
            LookupCache::for_keys(self.alloc, lists.len())
        } else {
            self.cache.clone()?
        };
        Ok(ChannelsByNode {
            alloc: self.alloc,
            lists,
            cache,
        })
    }

    fn add_one(&mut self, point: Point, scid: Scid) -> Result<(), AllocError>
        ensures ok { OnOk result (Sets self.old self.new point (with_id (list_at self.old point) scid)) }
        ensures err { OnErr result (IsSame self.old self.new) }
    {
        let guess = self.cache.guess(point.cache_key());
        if let Some(place) = place_of(&self.lists, guess, &point) {
            self.cache.insert_unless(guess, point.cache_key(), place);
            let (_, list) = self.lists.pair_mut(place);
            return list.insert(self.alloc, scid);
        }
        let (place, _) = self.lists.insert_full(point, ScidSet::of(scid))?;
        self.cache.reserve(self.lists.len());
        self.cache.insert(point.cache_key(), place);
        Ok(())
    }

    fn remove_one(&mut self, point: &Point, scid: Scid)
        ensures sets { Sets self.old self.new point.now (without_id (list_at self.old point.now) scid) }
        ensures moves { MovesLastAlone self.old self.new }
    {
        let guess = self.cache.guess(point.cache_key());
        if let Some(place) = place_of(&self.lists, guess, point) {
            let (_, list) = self.lists.pair_mut(place);
            list.remove(self.alloc, scid);
            if list.is_empty() {
                self.lists.swap_remove(point);
            }
        }
    }
}

/// The place of a point's list, if it has one: the guess if the point is there, else the hash table's.
fn place_of(
    lists: &IndexMap<Point, ScidSet, Seed>,
    guess: Option<usize>,
    point: &Point,
) -> Option<usize>
    ensures some { IfSome result (IsPlaceOf lists.now.entries point.now) }
    ensures none { IfNone result (entry_of lists.now.entries point.now ≡ None) }
{
    if let Some(place) = guess {
        match lists.get_index(place) {
            Some((own, _)) if *own == *point => return Some(place),
            _ => {}
        }
    }
    let (place, _, _) = lists.get_full(point)?;
    Some(place)
}
