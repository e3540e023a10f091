//! Lists of lists.

ghost use Rattle.std.specs.Prelude.{◌≡◌, ◌↔◌, ◌≤◌, ◌<◌, [], ◌∷◌, ◌++◌, length, replicate, IsTrue, IfOk, OnOk, OnErr};
ghost use Rattle.lgm_live.specs.Batches.{items_of};
ghost use Rattle.lgm_live.specs.inner.Gathered.{appended_to};

use lgm_board::MAX_OPERATIONS;
use lgm_gossip::Sequence;
use lgm_route::Request;
use lgm_script::Item;
use std::alloc::{AllocError, Global};
use std::marker::Model;
use std::mem;

/// Lists in order. There may be none, and one may be empty. Contracts see a list of lists.
#[derive(Debug, Drop)]
pub struct Lists<T> {
    lists: Vec<Sequence<T>>,
}

/// Batches of items, in the order in which they are offered. Those of a batch are published together.
pub type Batches = Lists<Item>;

/// One list of payments per worker.
pub type RequestLists = Lists<Request>;

impl<T> Model for Lists<T> {
    ghost use Rattle.std.specs.Prelude.{List};

    ghost Value = { List (List T) };

    ghost view = { λ l. l.lists.items };
}

impl<T: Drop> Lists<T> {
    /// No list. Nothing is allocated.
    pub fn new(alloc: Global) -> Lists<T>
        ensures { result ≡ [] }
    {
        Lists {
            lists: Vec::new(alloc),
        }
    }

    pub(crate) fn empty(alloc: Global, count: usize) -> Result<Lists<T>, AllocError>
        ensures { IfOk result (λ lists. lists ≡ replicate count []) }
    {
        let mut lists = Lists::new(alloc);
        for _list in 0..count {
            lists.push(Vec::new(alloc))?;
        }
        Ok(lists)
    }

    /// Adds a list, which is dropped if memory runs out.
    pub fn push(&mut self, list: Vec<T>) -> Result<(), AllocError>
        ensures ok { OnOk result (self.new ≡ self.old ++ list.items ∷ []) }
        ensures err { OnErr result (self.new ≡ self.old) }
    {
        self.lists.push(Sequence::from_vec(list))?;
        Ok(())
    }

    pub(crate) fn append(&mut self, alloc: Global, place: usize, item: T) -> Result<(), AllocError>
        requires { place < length self.old }
        ensures { OnOk result (self.new ≡ appended_to self.old place item) }
    {
        let list = &mut self.lists[place];
        let mut items = mem::replace(list, Sequence::from_vec(Vec::new(alloc))).into_vec();
        items.push(item)?;
        *list = Sequence::from_vec(items);
        Ok(())
    }

    /// The number of lists.
    pub fn len(&self) -> usize
        ensures { result ≡ length self.now }
    {
        self.lists.len()
    }

    pub(crate) fn as_slice(&self) -> &[Sequence<T>]
        ensures { result.now ≡ self.now }
    {
        self.lists.as_slice()
    }
}

impl Lists<Item> {
    /// Whether there are at most as many items in total as a board takes operations, 2,000,000,000.
    pub fn are_few(&self) -> bool
        ensures { IsTrue result ↔ (length (items_of self.now) ≤ 2000000000) }
    {
        let mut room = MAX_OPERATIONS;
        for batch in self.as_slice() {
            let items = batch.as_slice().len() as u64;
            if room < items {
                return false;
            }
            room -= items;
        }
        true
    }
}
