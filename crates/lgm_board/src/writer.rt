//! The writer's side of the two copies.

ghost use Rattle.std.specs.Prelude.{◌≡◌, ◌≤◌, ◌∷◌, [], ◌++◌, length, drop, Some, IfOk, IfErr, OnOk, OnErr};
ghost use Rattle.left_right.specs.Sides.{view as last_of};
ghost use Rattle.lgm_board.specs.inner.Shown.{ops_of, whole, IsComplete, Publishes};

use crate::fault::NoMemory;
use crate::rule::{Last, Published, Seeing};
use crate::snapshot::{LogEntry, MAX_OPERATIONS, Snapshot};
use crate::told::Told;
use left_right::writer::Writer;
use lgm_store::Op;
use std::sync::Wait;

/// The two copies, and the entries that one of them lacks.
pub(crate) type Sides = Writer<Snapshot, LogEntry, Last, Published>;

/// Adds a pending operation.
pub(crate) fn absorb(writer: &mut Sides, op: Op) -> Result<(), Op>
    ensures desk { writer.new.desk ≡ writer.old.desk }
    ensures appended { OnOk result (ops_of (drop writer.new.behind writer.new.log.items)
        ≡ ops_of (drop writer.old.behind writer.old.log.items) ++ op ∷ []) }
    ensures stays { OnErr result (ops_of (drop writer.new.behind writer.new.log.items)
        ≡ ops_of (drop writer.old.behind writer.old.log.items)) }
    ensures back { IfErr result (λ back. back ≡ op) }
{
    match writer.append(LogEntry::Absorb(op)) {
        Ok(()) => Ok(()),
        Err(LogEntry::Absorb(op)) => Err(op),
        Err(LogEntry::Reached(_)) => unreachable!(),
    }
}

/// Adds the entry with the list that the copies will have reached.
pub(crate) fn reach(writer: &mut Sides, told: Told) -> Result<(), NoMemory>
    requires { told ≡ whole writer.old.desk.shown.value.told (drop writer.old.behind writer.old.log.items) }
    ensures desk { writer.new.desk ≡ writer.old.desk }
    ensures ops { ops_of (drop writer.new.behind writer.new.log.items)
        ≡ ops_of (drop writer.old.behind writer.old.log.items) }
    ensures complete { OnOk result
        (IsComplete writer.new.desk.shown.value.told (drop writer.new.behind writer.new.log.items)) }
{
    match writer.append(LogEntry::Reached(told)) {
        Ok(()) => Ok(()),
        Err(_) => Err(NoMemory),
    }
}

/// Publishes all pending operations.
pub(crate) fn publish_all<Rt: Wait>(rt: &Rt, writer: Sides) -> (Sides, Result<(), NoMemory>)
    requires complete { IsComplete writer.desk.shown.value.told (drop writer.behind writer.log.items) }
    requires few { length (whole writer.desk.shown.value.told (drop writer.behind writer.log.items)).ops
        ≤ MAX_OPERATIONS }
    ensures told { Publishes result.1 writer.desk.shown.value.told result.0.desk.shown.value.told
        (drop writer.behind writer.log.items) (drop result.0.behind result.0.log.items) }
    ensures known { result.0.desk.shown.value.known ≡ writer.desk.shown.value.known }
    ensures seen { IfOk result.1 (λ _. last_of result.0.desk.place ≡ Some result.0.desk.shown.value) }
{
    let (next, done) = writer.publish_as::<Seeing, Rt>(rt);
    match done {
        Ok(()) => (next, Ok(())),
        Err(_) => (next, Err(NoMemory)),
    }
}
