//! What guards show.

use super::scid;
use lgm_publish::{Eye, Guard};
use lgm_store::Map;

/// What a map has of the channel.
#[derive(Clone, Copy, Debug, PartialEq, Eq)]
pub struct Contents {
    /// The capacity of the channel, in sat, or 0 if there is no channel.
    pub sat: u64,
    /// Whether it has the update of each direction.
    pub updates: (bool, bool),
}

fn holds(map: &Map) -> Contents {
    let sat = match map.channel(scid()) {
        Some(row) => row.sat,
        None => 0,
    };
    Contents {
        sat,
        updates: (
            map.update(scid(), false).is_some(),
            map.update(scid(), true).is_some(),
        ),
    }
}

/// What a guard shows.
#[derive(Clone, Copy, Debug, PartialEq, Eq)]
pub struct Shown {
    pub version: u64,
    pub map: Contents,
    pub edges: usize,
}

pub fn shows(guard: &Guard) -> Shown {
    Shown {
        version: guard.version(),
        map: holds(guard.map()),
        edges: guard.view().edge_count(),
    }
}

/// What a guard of the eye shows, if there is one.
pub fn look(eye: Eye) -> (Eye, Option<Shown>) {
    match eye.enter() {
        Ok(guard) => {
            let shown = shows(&guard);
            (guard.leave(), Some(shown))
        }
        Err(eye) => (eye, None),
    }
}
