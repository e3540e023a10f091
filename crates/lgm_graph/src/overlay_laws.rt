//! Laws of the edges over an overlay.

ghost use Rattle.lgm_graph.specs.Overlay.{IsNeutral, KeepsKeys, OnlyNarrows, OnlyAdds};

/// An overlay of nothing leaves the map's edges as they are. Node and id identify an edge over any overlay. Limits and
/// silent nodes only remove edges and lower their maxima. Extra edges with keys of their own only add. The call does
/// nothing: its contract is the law.
pub fn overlays_are_lawful()
    ensures neutral { IsNeutral }
    ensures keyed { KeepsKeys }
    ensures narrows { OnlyNarrows }
    ensures adds { OnlyAdds }
{}
