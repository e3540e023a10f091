//! Points, edges and hops.

ghost use Rattle.std.specs.Prelude.{◌≡◌};
ghost use Rattle.lgm_payer_state.specs.Edges.{point_bytes, extra_edge_bytes, hop_bytes};
ghost use Rattle.lgm_payer_state.specs.reading.EdgesReading.{point_at, extra_edge_at, hop_at};

use crate::fields::{fixed, number16, number32, number64, write_fixed, write16, write32, write64};
use crate::state_fault::StateFault;
use crate::stored::Stored;
use lgm_gossip::{Point, Scid};
use lgm_graph::{ExtraEdge, Hop};
use std::alloc::{AllocError, Global};

impl Stored for Point {
    ghost bytes_of = { point_bytes };

    ghost read_at = { point_at };

    #[tactic(auto, unfolding(crate::specs::Edges::point_bytes, crate::specs::reading::EdgesReading::point_at))]
    fn write(&self, out: &mut Vec<u8>) -> Result<(), AllocError> {
        write_fixed(&self.0, out)?;
        Ok(())
    }

    #[tactic(auto, unfolding(crate::specs::Edges::point_bytes, crate::specs::reading::EdgesReading::point_at))]
    fn read(_alloc: Global, bytes: &[u8]) -> Result<(Point, &[u8]), StateFault> {
        let (point, rest) = fixed(bytes)?;
        Ok((Point(point), rest))
    }
}

impl Stored for ExtraEdge {
    ghost bytes_of = { extra_edge_bytes };

    ghost read_at = { extra_edge_at };

    #[tactic(auto, unfolding(crate::specs::Edges::extra_edge_bytes, crate::specs::reading::EdgesReading::extra_edge_at))]
    fn write(&self, out: &mut Vec<u8>) -> Result<(), AllocError> {
        write64(self.scid.to_u64(), out)?;
        self.from.write(out)?;
        self.to.write(out)?;
        write32(self.base, out)?;
        write32(self.millionths, out)?;
        write16(self.delta, out)?;
        write64(self.min, out)?;
        write64(self.max, out)?;
        Ok(())
    }

    #[tactic(auto, unfolding(crate::specs::Edges::extra_edge_bytes, crate::specs::reading::EdgesReading::extra_edge_at))]
    fn read(alloc: Global, bytes: &[u8]) -> Result<(ExtraEdge, &[u8]), StateFault> {
        let (scid, rest) = number64(bytes)?;
        let (from, rest) = Point::read(alloc, rest)?;
        let (to, rest) = Point::read(alloc, rest)?;
        let (base, rest) = number32(rest)?;
        let (millionths, rest) = number32(rest)?;
        let (delta, rest) = number16(rest)?;
        let (min, rest) = number64(rest)?;
        let (max, rest) = number64(rest)?;
        let edge = ExtraEdge {
            scid: Scid::from_u64(scid),
            from,
            to,
            base,
            millionths,
            delta,
            min,
            max,
        };
        Ok((edge, rest))
    }
}

impl Stored for Hop {
    ghost bytes_of = { hop_bytes };

    ghost read_at = { hop_at };

    #[tactic(auto, unfolding(crate::specs::Edges::hop_bytes, crate::specs::reading::EdgesReading::hop_at))]
    fn write(&self, out: &mut Vec<u8>) -> Result<(), AllocError> {
        write64(self.scid.to_u64(), out)?;
        self.from.write(out)?;
        self.to.write(out)?;
        write64(self.amount, out)?;
        write32(self.expiry, out)?;
        Ok(())
    }

    #[tactic(auto, unfolding(crate::specs::Edges::hop_bytes, crate::specs::reading::EdgesReading::hop_at))]
    fn read(alloc: Global, bytes: &[u8]) -> Result<(Hop, &[u8]), StateFault> {
        let (scid, rest) = number64(bytes)?;
        let (from, rest) = Point::read(alloc, rest)?;
        let (to, rest) = Point::read(alloc, rest)?;
        let (amount, rest) = number64(rest)?;
        let (expiry, rest) = number32(rest)?;
        let hop = Hop {
            scid: Scid::from_u64(scid),
            from,
            to,
            amount,
            expiry,
        };
        Ok((hop, rest))
    }
}
