//! Looking up messages before their turn.

pub(crate) mod lookup;
pub(crate) mod lookup_cache;

use crate::checked_message::{CheckedMessage, StoredMessage};
use crate::map::Map;
use lookup::{ChannelLookup, Hint, NodeLookup, UpdateLookup};
use std::alloc::{AllocError, Global};

/// The number of messages of a kind that are looked up together. What is read for them has to stay in the processor's
/// nearest caches until their turns.
const LOOKUPS_TOGETHER: usize = 32;

/// What is looked up for messages that will be offered to a map. No contract depends on it.
///
/// Each look at the memory takes long, and those for one message depend on each other, but not on those for another. So
/// some messages are looked up together, one look of each after the other, and then offered in their turns. They are of
/// one kind, so that the processor knows what comes next, and has more looks under way.
#[derive(Drop)]
pub struct Lookahead {
    updates: Queue<UpdateLookup>,
    channels: Queue<ChannelLookup>,
    nodes: Queue<NodeLookup>,
}

/// The lookups of a kind, in the order of their turns.
#[derive(Drop)]
struct Queue<T> {
    lookups: Vec<T>,
    /// The index of the next one.
    next: usize,
}

impl<T: Drop> Queue<T> {
    fn new(alloc: Global) -> Queue<T> {
        Queue {
            lookups: Vec::new(alloc),
            next: 0,
        }
    }

    /// The index of the next one, whose turn it is.
    fn step(&mut self) -> usize {
        let place = self.next;
        self.next = place.wrapping_add(1);
        place
    }

    /// The lookups from an index on that are looked up together.
    fn from(&mut self, place: usize) -> &mut [T] {
        let place = place.min(self.lookups.len());
        let (_, rest) = self.lookups.as_mut_slice().split_at_mut(place);
        let count = rest.len().min(LOOKUPS_TOGETHER);
        &mut rest[..count]
    }
}

impl Lookahead {
    /// No messages. Allocates nothing.
    pub fn new(alloc: Global) -> Lookahead {
        Lookahead {
            updates: Queue::new(alloc),
            channels: Queue::new(alloc),
            nodes: Queue::new(alloc),
        }
    }

    /// Adds a message, whose turn comes after those before it.
    pub fn add(&mut self, message: &CheckedMessage) -> Result<(), AllocError> {
        match &message.stored {
            StoredMessage::Channel(row) => self
                .channels
                .lookups
                .push(ChannelLookup::of(row.get()))?,
            StoredMessage::Update(row, _) => self
                .updates
                .lookups
                .push(UpdateLookup::of(row.get()))?,
            StoredMessage::Node(row) => self.nodes.lookups.push(NodeLookup::of(row.get()))?,
        }
        Ok(())
    }

    /// Where the message whose turn it is may be stored. It is looked up, with those of its kind that follow, unless it
    /// was with those before it.
    #[inline(always)]
    pub fn next(&mut self, map: &Map, message: &CheckedMessage) -> Hint {
        match &message.stored {
            StoredMessage::Channel(_) => self.next_channel(map),
            StoredMessage::Update(_, _) => return self.next_update(map),
            StoredMessage::Node(_) => self.next_node(map),
        }
        Hint::none()
    }

    fn next_update(&mut self, map: &Map) -> Hint {
        let place = self.updates.step();
        if place % LOOKUPS_TOGETHER == 0 {
            map.look_up_updates(self.updates.from(place));
        }
        match self.updates.lookups.get(place) {
            Some(lookup) => lookup.hint(),
            None => Hint::none(),
        }
    }

    fn next_channel(&mut self, map: &Map) {
        let place = self.channels.step();
        if place % LOOKUPS_TOGETHER == 0 {
            map.look_up_channels(self.channels.from(place));
        }
    }

    fn next_node(&mut self, map: &Map) {
        let place = self.nodes.step();
        if place % LOOKUPS_TOGETHER == 0 {
            map.look_up_nodes(self.nodes.from(place));
        }
    }
}
