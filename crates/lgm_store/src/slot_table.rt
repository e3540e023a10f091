//! Values in slots, by key.

ghost use Rattle.std.specs.Prelude.{◌≡◌, ◌++◌, ◌∷◌, [], length, true, is_some, IfSome, IfOk, OnOk, OnErr};
ghost use Rattle.std.specs.Option.{option_copied, option_map};
ghost use Rattle.std.specs.List.Sorted.{IsStrictlySortedBy};
ghost use Rattle.std.specs.Map.{lookup, remove_entry, keys_of};
ghost use Rattle.std.specs.BTreeMap.{is_at, insert_entry};
ghost use Rattle.std.specs.List.{AllByRecursion};
ghost use Rattle.std.specs.declared.cmp.Ordering.TheVariants.{Equal, Greater};
ghost use Rattle.lgm_store.specs.inner.Slots.{slot_at, IsNumbered, AreSame, Places};

use crate::lookahead::lookup_cache::LookupCache;
use slab::Slab;
use std::alloc::{AllocError, Global};
use std::collections::BTreeMap;
use std::marker::Model;

/// A key of a table. Equal keys are the same.
pub(crate) trait Key: Ord + Copy + Drop {
    /// What it is cached by.
    fn cache_key(&self) -> u64;

    ghost same: { (a b : Self) → Self.cmp a b ≡ Equal → a ≡ b };
}

/// A value that has its key, and is copied by sharing its rows.
pub(crate) trait Keyed<K>: Drop {
    ghost key_of: { Self → K };

    fn key(&self) -> K
        ensures { result ≡ key_of self.now };

    /// A copy.
    fn copied(&self) -> Result<Self, AllocError>
        ensures { IfOk result (λ copy. copy ≡ self.now) };
}

/// Values by key. Contracts see each key with its value, ascending.
///
/// Values are stored in slots, with a B-tree from key to slot number, and a lookup cache in front: so a search of the
/// tree reads keys and slot numbers alone, and mostly there is no search. The slot of a removed value is reused.
#[derive(Drop)]
pub(crate) struct SlotTable<K: Key, V: Keyed<K>> {
    pub(crate) numbers: BTreeMap<K, usize>,
    pub(crate) slots: Slab<V>,
    /// In front of the tree. No contract depends on it.
    pub(crate) cache: LookupCache,
}

impl<K: Key, V: Keyed<K>> Model for SlotTable<K, V> {
    ghost use Rattle.std.specs.Prelude.{List};
    ghost use Rattle.lgm_store.specs.inner.Slots.{entries_in, IsNumbered};

    ghost Value = { List (K × V) };

    ghost view = { λ s. entries_in s.slots.slots s.numbers.entries };

    ghost invariant = { λ s. IsNumbered K.cmp V.key_of s.slots.slots s.numbers.entries };
}

impl<K: Key, V: Keyed<K>> SlotTable<K, V> {
    /// A table without values. Allocates nothing.
    pub(crate) fn new(alloc: Global) -> SlotTable<K, V>
        ensures { result ≡ [] }
    {
        SlotTable {
            numbers: BTreeMap::new(alloc),
            slots: Slab::new(alloc),
            cache: LookupCache::new(alloc),
        }
    }

    /// The number of values.
    pub(crate) fn len(&self) -> usize
        ensures { result ≡ length self.now }
    {
        self.numbers.len()
    }

    /// The value of a key, if it has one.
    pub(crate) fn get(&self, key: &K) -> Option<&V>
        ensures { option_copied result ≡ lookup (is_at (K.cmp key.now)) self.now }
    {
        let guess = self.cache.guess(key.cache_key());
        let number = number_of(&self.numbers, &self.slots, guess, key)?;
        Some(&self.slots[number])
    }

    /// Removes the value of a key and returns it, if it has one.
    pub(crate) fn remove(&mut self, key: &K) -> Option<V>
        ensures value { result ≡ lookup (is_at (K.cmp key.now)) self.old }
        ensures left { self.new ≡ remove_entry (is_at (K.cmp key.now)) self.old }
        ensures ascend { IsStrictlySortedBy K.cmp (keys_of self.new) }
    {
        let number = self.numbers.remove(key)?;
        Some(self.slots.remove(number))
    }

    /// Removes the value of a key, if it has one.
    pub(crate) fn discard(&mut self, key: &K)
        ensures left { self.new ≡ remove_entry (is_at (K.cmp key.now)) self.old }
        ensures ascend { IsStrictlySortedBy K.cmp (keys_of self.new) }
    {
        self.remove(key);
    }
}

/// Whether there is room for more than four times as many values as there are, and some more.
pub(crate) fn is_sparse(room: usize, values: usize) -> bool {
    room / 4 > values.saturating_add(64)
}

impl<K: Key, V: Keyed<K>> SlotTable<K, V> {
    /// Whether most slots are vacant.
    pub(crate) fn is_sparse(&self) -> bool {
        is_sparse(self.slots.capacity(), self.numbers.len())
    }

    /// A copy without vacant slots, which are in the order of the keys.
    pub(crate) fn packed(&self, alloc: Global) -> Result<SlotTable<K, V>, AllocError>
        ensures { IfOk result (λ copy. copy ≡ self.now) }
    {
        let mut copy = SlotTable::new(alloc);
        for (_, number) in &self.numbers {
            copy.append(self.slots[*number].copied()?)?;
        }
        Ok(copy)
    }

    /// Adds a value whose key is above all others.
    fn append(&mut self, value: V) -> Result<(), AllocError>
        requires { AllByRecursion (λ key. K.cmp (V.key_of value) key ≡ Greater) (keys_of self.old) }
        ensures { OnOk result (self.new ≡ self.old ++ (V.key_of value, value) ∷ []) }
    {
        match place(&mut self.numbers, &mut self.slots, &mut self.cache, value)? {
            None => Ok(()),
            Some(_) => unreachable!(),
        }
    }
}

/// Adds a value, unless its key has one: then it returns the number of that one's slot, and the value. One search of the
/// tree decides that and adds it. Out of memory leaves tree and slots unchanged.
#[inline(always)]
pub(crate) fn place<K: Key, V: Keyed<K>>(
    numbers: &mut BTreeMap<K, usize>,
    slots: &mut Slab<V>,
    cache: &mut LookupCache,
    value: V,
) -> Result<Option<(usize, V)>, AllocError>
    requires { IsNumbered K.cmp V.key_of slots.old.slots numbers.old.entries }
    ensures ok { IfOk result (λ placed. Places K.cmp V.key_of slots.old slots.new
        numbers.old.entries numbers.new.entries value placed) }
    ensures err { OnErr result (AreSame slots.old slots.new numbers.old.entries numbers.new.entries) }
{
    let key = value.key();
    let guess = cache.guess(key.cache_key());
    if let Some(number) = guessed(slots, guess, &key) {
        return Ok(Some((number, value)));
    }
    slots.reserve(1)?;
    let number = slots.vacant_key();
    if let Some(own) = numbers.insert(key, number)? {
        put_back(numbers, key, own);
        return Ok(Some((own, value)));
    }
    slots.insert_reserved(value);
    cache.reserve(numbers.len());
    cache.insert(key.cache_key(), number);
    Ok(None)
}

/// Gives a key of the tree the slot number that it had. Nothing is allocated.
fn put_back<K: Ord + Copy + Drop>(numbers: &mut BTreeMap<K, usize>, key: K, number: usize)
    requires { is_some (lookup (is_at (K.cmp key)) numbers.old.entries) ≡ true }
    ensures { numbers.new.entries ≡ insert_entry K.cmp numbers.old.entries key number }
{
    let Ok(_) = numbers.insert(key, number) else {
        unreachable!();
    };
}

/// The number of the slot of a key's value, if it has one: the guess if that slot has it, else the tree's.
pub(crate) fn number_of<K: Key, V: Keyed<K>>(
    numbers: &BTreeMap<K, usize>,
    slots: &Slab<V>,
    guess: Option<usize>,
    key: &K,
) -> Option<usize>
    requires { IsNumbered K.cmp V.key_of slots.now.slots numbers.now.entries }
    ensures { result ≡ lookup (is_at (K.cmp key.now)) numbers.now.entries }
{
    match guessed(slots, guess, key) {
        Some(number) => Some(number),
        None => numbers.get(key).copied(),
    }
}

/// A guess of a slot number, if the slot has a value of the key.
fn guessed<K: Key, V: Keyed<K>>(slots: &Slab<V>, guess: Option<usize>, key: &K) -> Option<usize>
    ensures { IfSome result (λ number. option_map V.key_of (slot_at slots.now.slots number) ≡ Some key.now) }
{
    let number = guess?;
    match slots.get(number) {
        Some(stored) if stored.key() == *key => Some(number),
        _ => None,
    }
}
