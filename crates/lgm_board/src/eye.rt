//! Readers.

ghost use Rattle.std.specs.Prelude.{◌≡◌, ◌≤◌, Some, length, IfOk, IfErr};
ghost use mathlib.Core.List.{IsPrefix};
ghost use Rattle.left_right.specs.Sides.{view as last_of};
ghost use Rattle.lgm_store.specs.History.{fold};
ghost use Rattle.lgm_graph.specs.Graph.{IsGraphOf};
ghost use Rattle.lgm_board.specs.inner.Contents.{Contents, sight, known_in};
ghost use Rattle.lgm_board.specs.Limits.{most_operations};
ghost use Rattle.lgm_board.specs.Lists.{IsLonger};

use crate::rule::{Last, Published, Seeing};
use crate::snapshot::Snapshot;
use crate::told::Told;
use left_right::reader::{Reader, Reading};
use lgm_graph::View;
use lgm_store::Map;
use std::marker::Model;

/// A reader without a guard. Contracts see its board, the known feature bits of nodes, and the longest list of
/// operations that it has observed or learned. It may be dropped at any time.
#[derive(Drop)]
pub struct Eye {
    reader: Reader<Snapshot, Last, Published>,
    told: Told,
}

impl Model for Eye {
    ghost use Rattle.std.specs.Prelude.{◌≡◌, Some};
    ghost use Rattle.left_right.specs.Sides.{view as last_of};
    ghost use Rattle.lgm_board.specs.Handles.{Sight, sight_code};
    ghost use Rattle.lgm_board.specs.inner.Contents.{Contents, sight, known_in};

    ghost Value = { Sight };

    ghost coded = { sight_code };

    ghost view = { λ e. sight (known_in (last_of e.reader.place)) e.told };

    ghost invariant = { λ e. (last : Contents) × (last_of e.reader.place ≡ Some last)
        × (last.told.board ≡ e.told.board) };
}

impl Eye {
    /// An eye that has observed what its place at the table says.
    pub(crate) fn new(reader: Reader<Snapshot, Last, Published>, told: Told) -> Eye
        requires { (last : Contents) × (last_of reader.place ≡ Some last) × (last.told.board ≡ told.board) }
        ensures { result ≡ sight (known_in (last_of reader.place)) told }
    {
        Eye { reader, told }
    }

    /// Learns a token told by a pen of the same board. What the eye has observed becomes the longer of its list and the
    /// told one, one of which is a prefix of the other. Never waits.
    pub fn learn(&mut self, told: Told)
        requires { told.board ≡ self.old.board }
        ensures board { self.new.board ≡ self.old.board }
        ensures known { self.new.known ≡ self.old.known }
        ensures seen { IsLonger self.new.ops self.old.ops told.ops }
    {
        if self.told.begins(&told) {
            self.told = told;
        }
    }

    /// Takes the map published last. The guard's list extends all that the eye has observed. Never waits.
    ///
    /// The eye is returned unchanged if there is nothing to show, as after the pen has ended. It would also be returned
    /// if less is published than it was told, which doesn't happen: what is told was published before.
    pub fn enter(self) -> Result<Guard, Eye>
        ensures board { IfOk result (λ guard. guard.board ≡ self.board) }
        ensures known { IfOk result (λ guard. guard.known ≡ self.known) }
        ensures seen { IfOk result (λ guard. IsPrefix self.ops guard.ops) }
        ensures few { IfOk result (λ guard. length guard.ops ≤ most_operations) }
        ensures back { IfErr result (λ eye. eye ≡ self) }
    {
        let Eye { reader, told } = self;
        let reading = match reader.enter_as::<Seeing>() {
            Ok(reading) => reading,
            Err(reader) => return Err(Eye { reader, told }),
        };
        let shown = reading.get().told();
        if told.begins(shown) {
            Ok(Guard { reading })
        } else {
            Err(Eye {
                reader: reading.leave(),
                told,
            })
        }
    }
}

/// A reader that is reading. Contracts see its board, the known feature bits of nodes, and the list of operations whose
/// map it shows. It ends with `leave`; until then the writer may have to wait for it.
pub struct Guard {
    reading: Reading<Snapshot, Last, Published>,
}

impl Model for Guard {
    ghost use Rattle.std.specs.Prelude.{◌≡◌, Some};
    ghost use Rattle.left_right.specs.Sides.{view as last_of};
    ghost use Rattle.lgm_board.specs.Handles.{Sight, sight_code};
    ghost use Rattle.lgm_board.specs.inner.Contents.{sight};
    ghost use Rattle.lgm_board.specs.inner.Shown.{IsFold};

    ghost Value = { Sight };

    ghost coded = { sight_code };

    ghost view = { λ g. sight g.reading.part.value.known g.reading.part.value.told };

    ghost invariant = { λ g. (last_of g.reading.place ≡ Some g.reading.part.value)
        × IsFold g.reading.part.value };
}

impl Guard {
    /// The map: the fold of the guard's list. Nothing is allocated.
    pub fn map(&self) -> &Map
        ensures { result.now ≡ fold self.now.ops }
    {
        self.reading.get().map()
    }

    /// The length of the guard's list. Nothing is allocated.
    pub fn version(&self) -> u64
        ensures { result ≡ length self.now.ops }
    {
        self.reading.get().told().count()
    }

    /// The view of the map. Nothing is allocated.
    pub fn view(&self) -> &View
        ensures known { result.now.known ≡ self.now.known }
        ensures beside { IsGraphOf (fold self.now.ops) result.now }
    {
        self.reading.get().view()
    }

    /// Ends the reading. The eye has observed the guard's list. Never waits.
    pub fn leave(self) -> Eye
        ensures { result ≡ self }
    {
        let Guard { reading } = self;
        let told = reading.get().told().reborrow();
        Eye {
            reader: reading.leave(),
            told,
        }
    }
}
