//! Random items, offered to the map and to the plain program.

use super::comparing::compare;
use super::item::{Item, take, word_of};
use super::made::Made;
use super::plain::Plain;
use lgm_store::{Map, Op, Seed};
use lgm_test_gossip::empty_map;
use std::alloc::{AllocError, Global};
use std::process::Abort;
use std::test::Fail;

/// A map, the plain program, and the operations so far.
#[derive(Drop)]
struct Both {
    map: Box<Map>,
    plain: Plain,
    history: Vec<Op>,
}

impl Both {
    fn new(alloc: Global) -> Result<Both, AllocError> {
        Ok(Both {
            map: empty_map(alloc)?,
            plain: Plain::new(alloc),
            history: Vec::new(alloc),
        })
    }

    /// Offers an item to both, which return the same word.
    fn offer(
        &mut self,
        rt: &impl Abort,
        alloc: Global,
        item: &Item,
        mark: u16,
    ) -> Result<&'static str, AllocError> {
        let answer = take(alloc, &mut self.map, item, mark);
        let word = self.plain.take(item, mark)?;
        assert_eq!(rt; word_of(&answer), word, "item {mark}: {item:?}");
        if let Ok(op) = answer {
            self.history.push(op)?;
        }
        Ok(word)
    }
}

/// A copy, and the map that the operations leave with another seed, read as the map does.
fn compare_others(rt: &impl Abort, alloc: Global, both: &Both) -> Result<(), AllocError> {
    let copy = Box::new(alloc, both.map.copy(alloc)?)?;
    compare(rt, alloc, &copy, &both.plain)?;
    let mut replayed = Box::new(alloc, Map::with_seed(alloc, Seed::new([7; 16]))?)?;
    for op in &both.history {
        replayed.absorb(op)?;
    }
    compare(rt, alloc, &replayed, &both.plain)
}

/// Random items from a seed, and their words.
fn offer_made(
    rt: &impl Abort,
    alloc: Global,
    seed: u64,
    words: &mut Vec<&'static str>,
) -> Result<(), AllocError> {
    let mut both = Both::new(alloc)?;
    let mut made = Made::new(seed);
    for mark in 0..60u16 {
        let word = both.offer(rt, alloc, &made.item(), mark)?;
        words.push(word)?;
        compare(rt, alloc, &both.map, &both.plain)?;
    }
    compare_others(rt, alloc, &both)
}

/// The number of items with a word.
fn count_of(words: &[&'static str], word: &str) -> usize {
    words.iter().filter(|other| **other == word).count()
}

#[test]
fn made_items(rt: HostRuntime) -> Result<(), Fail> {
    let mut words = Vec::new(rt.alloc());
    for seed in 0..20 {
        offer_made(&rt, rt.alloc(), seed, &mut words)?;
    }
    for word in [
        "accepted",
        "known",
        "unknown-channel",
        "signature",
        "not-newer",
        "unknown-node",
        "banned",
    ] {
        let count = count_of(words.as_slice(), word);
        assert!(rt; count >= 10, "{word} came {count} times");
    }
    Ok(())
}
