//! Laws of the edges of rows.

ghost use Rattle.std.specs.Prelude.{ℕ, List, Option};
ghost use Rattle.lgm_store.specs.Rows.{Rows, IsAscending};
ghost use Rattle.lgm_graph.specs.Edges.{edges_of, AreDirections, AreKeyed};

/// Two edges of one channel are the same or have opposite directions. So node and id identify an edge. The call does
/// nothing: its contract is the law.
pub fn edges_are_directions()
    ensures directions { (known : Option (List ℕ)) (rows : Rows) → IsAscending rows
        → AreDirections (edges_of known rows) }
    ensures keyed { (known : Option (List ℕ)) (rows : Rows) → IsAscending rows
        → AreKeyed (edges_of known rows) }
{}
