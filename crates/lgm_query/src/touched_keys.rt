//! Keys that operations touch.

ghost use Rattle.std.specs.Prelude.{◌≡◌, ◌++◌, ◌∷◌, [], List, OnOk, OnErr};
ghost use Rattle.lgm_store.specs.declared.op.Op.{Op};
ghost use Rattle.lgm_query.specs.Touched.{HasTouched};

use lgm_gossip::{Point, Scid};
use lgm_store::Op;
use std::alloc::{AllocError, Global};
use std::collections::BTreeSet;
use std::marker::Model;

/// The channels to which operations may add an announcement or an update, and the nodes to which they may add an
/// announcement: about others there are no news.
#[derive(Drop)]
pub struct TouchedKeys {
    pub(crate) channels: BTreeSet<Scid>,
    pub(crate) nodes: BTreeSet<Point>,
}

impl Model for TouchedKeys {
    ghost use Rattle.lgm_query.specs.Touched.{Touched};

    ghost Value = { Touched };

    ghost view = { λ c. record { channels = c.channels.keys; nodes = c.nodes.keys } };
}

impl TouchedKeys {
    /// The keys of no operations.
    pub fn new(alloc: Global) -> TouchedKeys
        ensures { HasTouched [] result }
    {
        TouchedKeys {
            channels: BTreeSet::new(alloc),
            nodes: BTreeSet::new(alloc),
        }
    }

    /// Adds the keys of another operation. Out of memory leaves them unchanged.
    pub fn touch(&mut self, op: &Op) -> Result<(), AllocError>
        ensures ok { OnOk result ((history : List Op) → HasTouched history self.old
            → HasTouched (history ++ op.now ∷ []) self.new) }
        ensures err { OnErr result (self.new ≡ self.old) }
    {
        match op {
            Op::Channel(row) => self.channels.insert(row.get().scid())?,
            Op::Update(row) => self.channels.insert(row.get().scid())?,
            Op::Node(row) => self.nodes.insert(row.get().node())?,
            // These only remove rows.
            Op::Close(_) | Op::Ban(_) => false,
        };
        Ok(())
    }
}
