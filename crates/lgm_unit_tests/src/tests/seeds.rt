//! The seeds by which points are hashed: a map has the one that it was made with, and so have its copies and its view.

use lgm_gossip::Scid;
use lgm_graph::{Known, View};
use lgm_store::{Map, Seed};
use lgm_test_gossip::ops::channel;
use std::alloc::{AllocError, Global};
use std::io;
use std::random::RandomSource;
use std::test::Fail;

const BYTES: [u8; 16] = *b"\x01\x02\x03\x04\x05\x06\x07\x08\x09\x0a\x0b\x0c\x0d\x0e\x0f\x10";

/// A source whose random bytes are known.
#[derive(Drop)]
struct Predicted;

impl RandomSource for Predicted {
    fn fill_bytes(&self, buf: &mut [u8]) -> io::Result<()> {
        for (byte, known) in buf.iter_mut().zip(&BYTES) {
            *byte = *known;
        }
        Ok(())
    }
}

/// A runtime that has no random bytes.
#[derive(Drop)]
struct Dry;

impl RandomSource for Dry {
    fn fill_bytes(&self, _buf: &mut [u8]) -> io::Result<()> {
        Err(io::Error::from(io::ErrorKind::Other))
    }
}

#[test]
fn a_seed_is_what_the_system_gives(rt: HostRuntime) -> Result<(), Fail> {
    assert_eq!(rt; Seed::random(&Predicted).bytes(), BYTES);
    assert_eq!(rt; Seed::random(&Dry).bytes(), [0; 16]);
    Ok(())
}

/// An empty map with this seed.
fn empty(alloc: Global) -> Result<Box<Map>, AllocError> {
    Ok(Box::new(alloc, Map::with_seed(alloc, Seed::new(BYTES))?)?)
}

/// A map of one channel with this seed.
fn map_of_one(alloc: Global) -> Result<Box<Map>, AllocError> {
    let mut map = empty(alloc)?;
    let op = channel(alloc, Scid::new(7, 0, 0), (10, 11), 100_000, &[])?;
    map.absorb(&op)?;
    Ok(map)
}

/// The seed of a copy of a map.
fn seed_of_copy(alloc: Global, map: &Map) -> Result<[u8; 16], AllocError> {
    Ok(map.copy(alloc)?.seed().bytes())
}

/// The seed of a view of a map with few channels.
fn seed_of_view(alloc: Global, map: &Map) -> Result<[u8; 16], AllocError> {
    if map.count() > 1_000 {
        return Err(AllocError);
    }
    Ok(View::of(alloc, map, &Known::all())?.seed().bytes())
}

#[test]
fn a_map_its_copy_and_its_view_have_one_seed(rt: HostRuntime) -> Result<(), Fail> {
    let map = map_of_one(rt.alloc())?;
    assert_eq!(rt; map.seed().bytes(), BYTES);
    assert_eq!(rt; seed_of_copy(rt.alloc(), &map)?, BYTES);
    assert_eq!(rt; seed_of_view(rt.alloc(), &map)?, BYTES);
    Ok(())
}
