//! A new board.

ghost use Rattle.std.specs.Prelude.{◌≡◌, ◌≤◌, [], length, Some, All, IfOk};
ghost use Rattle.left_right.specs.Sides.{view as last_of};
ghost use Rattle.lgm_board.specs.inner.Contents.{sight};

use crate::eye::Eye;
use crate::fault::PublishFault;
use crate::pen::Pen;
use crate::rule::Telling;
use crate::snapshot::Snapshot;
use crate::told::Told;
use crate::writer::{Sides, publish_all};
use left_right::writer::Writer;
use lgm_graph::Known;
use lgm_store::Seed;
use std::alloc::Global;
use std::random::RandomSource;
use std::sync::Wait;

/// This many eyes, each of which has observed what is published.
fn seat_all(
    writer: &mut Sides,
    told: &Told,
    eyes: &mut Vec<Eye>,
    readers: usize,
) -> Result<(), PublishFault>
    requires none { eyes.old.items ≡ [] }
    requires seen { last_of writer.old.desk.place ≡ Some writer.old.desk.shown.value }
    requires told { told.now ≡ writer.old.desk.shown.value.told }
    ensures kept { (writer.new.desk.shown ≡ writer.old.desk.shown) × (writer.new.log ≡ writer.old.log)
        × (writer.new.behind ≡ writer.old.behind) }
    ensures count { IfOk result (λ _. length eyes.new.items ≡ readers) }
    ensures eyes { IfOk result
        (λ _. All (λ eye. eye ≡ sight writer.old.desk.shown.value.known told.now) eyes.new.items) }
{
    for _eye in 0..readers {
        let Ok(mut reader) = writer.factory().reader() else {
            return Err(PublishFault::Places);
        };
        reader.learn::<Telling>(writer.tell::<Telling>());
        if eyes.push(Eye::new(reader, told.reborrow())).is_err() {
            return Err(PublishFault::NoMemory);
        }
    }
    Ok(())
}

/// The maximum number of eyes of a board.
pub const MAX_READERS: usize = 64;

/// A new board: an empty map with its view is published, and this many eyes, 1 to [`MAX_READERS`], may read it. The
/// known feature bits are copied.
///
/// The errors are out of memory, and `Places` if an eye got no place at the table. There are as many places as eyes, so
/// `Places` doesn't occur, which is tested and not proved.
pub fn board<Rt: Wait + RandomSource>(
    rt: &Rt,
    alloc: Global,
    readers: usize,
    known: &Known,
) -> Result<(Pen, Vec<Eye>), PublishFault>
    requires some { 1 ≤ readers }
    requires few { readers ≤ 64 }
    ensures published { IfOk result (λ made. made.0.published ≡ []) }
    ensures pending { IfOk result (λ made. made.0.pending ≡ []) }
    ensures count { IfOk result (λ made. length made.1.items ≡ readers) }
    ensures board { IfOk result (λ made. All (λ eye. eye.board ≡ made.0.board) made.1.items) }
    ensures known { IfOk result (λ made. All (λ eye. eye.known ≡ known.now) made.1.items) }
    ensures seen { IfOk result (λ made. All (λ eye. eye.ops ≡ []) made.1.items) }
{
    let (head, noted) = Told::open();
    let seed = Seed::random(rt);
    let first = Snapshot::new(alloc, seed, known, noted.reborrow())?;
    let second = Snapshot::new(alloc, seed, known, noted.reborrow())?;
    let mut eyes = Vec::new(alloc);
    let Ok(writer) = Writer::new(alloc, first, second, readers) else {
        return Err(PublishFault::NoMemory);
    };
    let (mut writer, done) = publish_all(rt, writer);
    let Ok(()) = done else {
        drop(writer.take(rt));
        return Err(PublishFault::NoMemory);
    };
    if let Err(fault) = seat_all(&mut writer, &noted, &mut eyes, readers) {
        drop(writer.take(rt));
        return Err(fault);
    }
    Ok((Pen::new(writer, head, noted), eyes))
}
