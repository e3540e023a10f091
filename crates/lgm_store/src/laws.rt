//! Laws of the rows that histories leave.

ghost use Rattle.std.specs.Prelude.{List};
ghost use Rattle.lgm_store.specs.declared.op.Op.{Op};
ghost use Rattle.lgm_store.specs.Rows.{IsAscending};
ghost use Rattle.lgm_store.specs.History.{fold};
ghost use Rattle.lgm_store.specs.Laws.{IsLawful};

/// The rows that a history leaves ascend by key, without duplicates. A call does nothing: its contract is the law.
pub fn rows_ascend()
    ensures { (history : List Op) → IsAscending (fold history) }
{}

/// The rows that a history leaves ascend by key, each update's channel is in the map, each node has a channel, and no
/// channel has a banned node. A call does nothing: its contract is the law.
pub fn histories_are_lawful()
    ensures { (history : List Op) → IsLawful (fold history) }
{}
