//! Maps for tests.

use crate::ops::{channel, node, update};
use crate::terms::{FREE, Terms};
use lgm_gossip::Scid;
use lgm_store::Map;
use std::alloc::{AllocError, Global};

/// An empty map. It is in a box: a proof takes long for a function that owns a map itself.
pub fn empty_map(alloc: Global) -> Result<Box<Map>, AllocError> {
    Ok(Box::new(alloc, Map::new(alloc)?)?)
}

/// A direction of a channel, or an extra edge.
#[derive(Clone, Copy, Debug)]
pub struct Way {
    pub id: u64,
    pub from: u16,
    pub to: u16,
    pub terms: Terms,
}

/// A free direction.
pub fn free(id: u64, from: u16, to: u16) -> Way {
    Way {
        id,
        from,
        to,
        terms: FREE,
    }
}

/// A free direction with this maximum.
pub fn up_to(id: u64, from: u16, to: u16, max: u64) -> Way {
    Way {
        id,
        from,
        to,
        terms: Terms { max, ..FREE },
    }
}

/// A direction with a base fee.
pub fn charging(id: u64, from: u16, to: u16, base: u32) -> Way {
    Way {
        id,
        from,
        to,
        terms: Terms { base, ..FREE },
    }
}

/// What a map is made of.
#[derive(Clone, Copy, Debug)]
pub enum Item {
    /// A channel of 100,000 sat.
    Channel(u64, u16, u16),
    /// A channel whose announcement has an even feature bit.
    Even(u64, u16, u16),
    /// An update of a direction of a channel.
    Update(Way),
    /// An update that disables it.
    Disabled(Way),
    /// The announcement of a node that requires bit 0.
    Node(u16),
}

/// The channel flags of an update: the direction, and whether it is disabled.
fn flags(way: &Way, disabled: u8) -> u8 {
    if way.from > way.to {
        disabled | 1
    } else {
        disabled
    }
}

fn absorb(alloc: Global, map: &mut Map, item: &Item) -> Result<(), AllocError> {
    let op = match item {
        Item::Channel(id, first, second) => {
            channel(alloc, Scid::from_u64(*id), (*first, *second), 100_000, &[])?
        }
        Item::Even(id, first, second) => {
            channel(alloc, Scid::from_u64(*id), (*first, *second), 100_000, &[1])?
        }
        Item::Update(way) => update(alloc, Scid::from_u64(way.id), flags(way, 0), &way.terms)?,
        Item::Disabled(way) => update(alloc, Scid::from_u64(way.id), flags(way, 2), &way.terms)?,
        Item::Node(number) => node(alloc, *number, &[1])?,
    };
    map.absorb(&op)
}

/// The map of some items.
pub fn map_of(alloc: Global, items: &[Item]) -> Result<Box<Map>, AllocError> {
    let mut map = empty_map(alloc)?;
    for item in items {
        absorb(alloc, &mut map, item)?;
    }
    Ok(map)
}

/// The channels of these directions.
pub fn items_of(alloc: Global, ways: &[Way]) -> Result<Vec<Item>, AllocError> {
    let mut items = Vec::new(alloc);
    for way in ways {
        items.push(Item::Channel(way.id, way.from.min(way.to), way.from.max(way.to)))?;
        items.push(Item::Update(*way))?;
    }
    Ok(items)
}

/// A row of free channels from node 1 on, each to the next node, whose id is that of its first node.
pub fn row(alloc: Global, channels: u16) -> Result<Vec<Item>, AllocError> {
    let mut items = Vec::new(alloc);
    for node in 1..=channels.min(100) {
        let id = u64::from(node);
        items.push(Item::Channel(id, node, node + 1))?;
        items.push(Item::Update(free(id, node, node + 1)))?;
    }
    Ok(items)
}
