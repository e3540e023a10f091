//! The invariant of a board: what is published is a fold, and extends all that its threads have observed.

ghost use Rattle.std.specs.Prelude.{None};
ghost use Rattle.lgm_board.specs.inner.Shown.{Holds, Sees, taken};

use crate::snapshot::Snapshot;
use atomic_table::{Join, Split};
use crossbeam_utils::rule::{Outcome, Protocol};

/// The snapshot that a thread observed last, if any. No value of this type is made.
pub(crate) type Last = Option<Snapshot>;

/// The invariant.
pub(crate) struct Published;

impl Protocol<Snapshot, Last> for Published {
    ghost holds = { Holds };

    ghost first = { None };
}

/// The steps of publishing and entering.
pub(crate) struct Seeing;

impl Outcome<Snapshot, Last> for Seeing {
    ghost then = { λ v _ y w. Sees v y w };
}

/// The step by which a new eye takes over what the pen observed.
pub(crate) struct Telling;

impl Split<Last> for Telling {
    ghost left = { λ v. v };

    ghost right = { λ v. v };
}

impl Join<Last> for Telling {
    ghost both = { taken };

    ghost spent = { None };
}
