//! A map with its view.

ghost use Rattle.std.specs.Prelude.{◌≡◌, ◌*◌, ◌≤◌, None, length, IfOk, IfSome, IsSome, OnOk, OnErr};
ghost use Rattle.std.specs.Option.{option_copied};
ghost use Rattle.lgm_store.specs.Rows.{empty};
ghost use Rattle.lgm_store.specs.Admission.{admitted, Offers};
ghost use Rattle.lgm_store.specs.History.{absorbed};
ghost use Rattle.lgm_graph.specs.Network.{GoesOn, IsViewed, KeepsView, most_points};

use crate::known::Known;
use crate::routing_graph::RoutingGraph;
use crate::view::View;
use lgm_check::Refusal;
use lgm_store::{CheckedMessage, Hint, Map, Op, Seed};
use std::alloc::{AllocError, Global};
use std::marker::Model;

/// How many points the view of a map may number: four for each channel, and 1,024 more, and in any case no more than their
/// numbers of 32 bits allow. Each channel has two, and a point keeps its number when its last channel is removed. So since a
/// view was built, more channels have been removed than there are, when it numbers too many.
fn most_points(map: &Map) -> usize
    ensures { result ≡ most_points map.now }
{
    let points = map.count().saturating_mul(4).saturating_add(1024);
    points.min(4_000_000_000)
}

/// A map, and its view once it is built, to which operations are applied together. Contracts see the known feature bits
/// of nodes, the rows of the map, and the graph of the view, which is always that of these rows. The parts are in a box, so
/// that a network is moved and swapped in one word.
#[derive(Drop)]
pub struct Network {
    parts: Box<Parts>,
}

/// The parts of a network.
#[derive(Drop)]
struct Parts {
    known: Known,
    map: Map,
    view: Option<View>,
}

impl Model for Network {
    ghost use Rattle.lgm_graph.specs.Network.{NetworkState, IsViewed};

    ghost Value = { NetworkState };

    ghost view = { λ n. record { known = n.parts.value.known; rows = n.parts.value.map; graph = n.parts.value.view } };

    ghost invariant = { λ n. IsViewed n.parts.value.known n.parts.value.map n.parts.value.view };
}

impl Network {
    /// No channels and no nodes, without a view. Points are hashed with the seed, and the known feature bits are
    /// copied.
    pub fn new(alloc: Global, seed: Seed, known: &Known) -> Result<Network, AllocError>
        ensures { IfOk result
            (λ network. network ≡ record { known = known.now; rows = empty; graph = None }) }
    {
        Network::of(alloc, Map::with_seed(alloc, seed)?, known)
    }

    /// A map, without a view. The known feature bits are copied.
    pub fn of(alloc: Global, map: Map, known: &Known) -> Result<Network, AllocError>
        ensures { IfOk result (λ network. network ≡ record { known = known.now; rows = map; graph = None }) }
    {
        let parts = Parts {
            known: known.copy(alloc)?,
            map,
            view: None,
        };
        Ok(Network {
            parts: Box::new(alloc, parts)?,
        })
    }

    /// A copy of the map, without a view.
    pub fn copy(&self, alloc: Global) -> Result<Network, AllocError>
        ensures { IfOk result (λ copy. copy ≡ record self.now { graph = None }) }
    {
        Network::of(alloc, self.parts.map.copy(alloc)?, &self.parts.known)
    }

    /// The known feature bits of nodes.
    pub fn known(&self) -> &Known
        ensures { result.now ≡ self.now.known }
    {
        &self.parts.known
    }

    /// The map, of which the view is if there is one.
    pub fn map(&self) -> &Map
        ensures { result.now ≡ self.now.rows }
    {
        &self.parts.map
    }

    /// Its view, if there is one.
    pub fn view(&self) -> Option<&View>
        ensures view { option_copied result ≡ self.now.graph }
        ensures beside { IsViewed self.now.known self.now.rows self.now.graph }
    {
        self.parts.view.as_ref()
    }

    /// Builds the view, unless there is one that numbers few enough points for the map ([`Network::absorb`]). The only error
    /// is out of memory, which leaves all unchanged.
    pub fn make_view(&mut self, alloc: Global) -> Result<(), AllocError>
        requires { length self.old.rows.channels ≤ 2000000000 }
        ensures rows { self.new.rows ≡ self.old.rows }
        ensures known { self.new.known ≡ self.old.known }
        ensures made { OnOk result (IsSome self.new.graph) }
        ensures few { OnOk result (self.old.graph ≡ None
            → IfSome self.new.graph (λ graph. length graph.points ≤ 2 * length self.old.rows.channels)) }
        ensures fits { OnOk result
            (IfSome self.new.graph (λ graph. length graph.points ≤ most_points self.old.rows)) }
        ensures kept { KeepsView self.old self.new.graph }
        ensures stays { OnErr result (self.new ≡ self.old) }
    {
        if let Some(view) = &self.parts.view {
            if view.nodes() <= most_points(&self.parts.map) {
                return Ok(());
            }
        }
        self.parts.view = Some(View::of(alloc, &self.parts.map, &self.parts.known)?);
        Ok(())
    }
}

impl Network {
    /// Applies an operation to the map, and to its view, if there is one. If the view numbers more than four points for each
    /// channel of the map and 1,024 more, it is dropped instead, so what a view takes is bounded by the map. The only error
    /// is out of memory, which leaves both unchanged.
    pub fn absorb(&mut self, op: &Op) -> Result<(), AllocError>
        ensures rows { OnOk result (self.new.rows ≡ absorbed self.old.rows op.now) }
        ensures known { self.new.known ≡ self.old.known }
        ensures view { OnOk result (GoesOn self.old.rows self.old.graph self.new.graph) }
        ensures stays { OnErr result (self.new ≡ self.old) }
    {
        let parts = &mut *self.parts;
        if let Some(view) = &mut parts.view {
            if view.nodes() <= most_points(&parts.map) {
                return view.apply(&mut parts.map, op);
            }
        }
        parts.map.absorb(op)?;
        parts.view = None;
        Ok(())
    }

    /// Admits a checked message, and applies its operation, which is returned. Without a view, one lookup suffices for
    /// both. An update's channel is looked for at a hint first, which is faster if it is right.
    ///
    /// A refusal or out of memory leaves all unchanged. A refused message is refused even if memory is short.
    #[inline(always)]
    pub fn offer_at(
        &mut self,
        alloc: Global,
        message: CheckedMessage,
        hint: Hint,
    ) -> Result<Op, Refusal>
        ensures admission { Offers result (admitted self.old.rows message) }
        ensures accepted { IfOk result (λ op. self.new.rows ≡ absorbed self.old.rows op) }
        ensures known { self.new.known ≡ self.old.known }
        ensures view { OnOk result (GoesOn self.old.rows self.old.graph self.new.graph) }
        ensures refused { OnErr result (self.new ≡ self.old) }
    {
        if self.parts.view.is_none() {
            return self.parts.map.offer_at(alloc, message, hint);
        }
        let op = self.parts.map.admit_checked(alloc, message)?;
        self.absorb(&op)?;
        Ok(op)
    }
}
