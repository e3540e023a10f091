//! The next line of a script. All answers are written before the source is read.

ghost use Rattle.std.specs.Prelude.{◌≡◌, ◌≢◌, ◌≤◌, ◌<◌, [], true, false, length};
ghost use Rattle.std.specs.Prelude.{take, IfOk, IfSome, OnOk};
ghost use Rattle.lgm_script.specs.Device.{IsAtEnd};
ghost use Rattle.lgm_script.specs.Lines.{ahead, HasNoLineFeed, IsFirstLine, IsLongerThan};
ghost use Rattle.lgm_script.specs.Output.{told_by, Tells, TellsPart};

use crate::devices::{Sink, Source};
use crate::input::line_reader::{LineReader, MAX_LINE, find_line};
use crate::output::{Output, SendFault};

/// Why there is no next line.
#[derive(Clone, Copy, Debug, PartialEq, Eq)]
pub enum LineFault {
    /// The source failed.
    Read,
    /// The sink failed.
    Write,
    /// The line has more than `MAX_LINE` bytes.
    TooLong,
}

/// Writes what is buffered, and then reads more bytes ahead. Returns whether there was one.
fn read_on<R: Source, W: Sink>(
    lines: &mut LineReader,
    source: &mut R,
    output: &mut Output<'_, W>,
) -> Result<bool, LineFault>
    requires room { length lines.old ≤ MAX_LINE }
    ensures kept { ahead lines.new (R.seen source.new).left ≡ ahead lines.old (R.seen source.old).left }
    ensures front { OnOk result (take (length lines.old) lines.new ≡ lines.old) }
    ensures more { result ≡ Ok true → length lines.old < length lines.new }
    ensures same { result ≡ Ok false → lines.new ≡ lines.old }
    ensures end { result ≡ Ok false → IsAtEnd (R.seen source.new).left }
    ensures written { result ≢ Err LineFault.Write
        → Tells (told_by W.seen output.old) (told_by W.seen output.new) [] }
    ensures write { result ≡ Err LineFault.Write
        → TellsPart (told_by W.seen output.old) (told_by W.seen output.new) [] SendFault.Write }
    ensures read { result ≡ Err LineFault.Read → (R.seen source.old).failures < (R.seen source.new).failures }
    ensures well { result ≢ Err LineFault.Read → (R.seen source.new).failures ≡ (R.seen source.old).failures }
    ensures short { result ≢ Err LineFault.TooLong }
{
    let Ok(()) = output.flush() else {
        return Err(LineFault::Write);
    };
    match lines.read_more(source, output) {
        Ok(more) => Ok(more),
        Err(_) => Err(LineFault::Read),
    }
}

/// The length of the next line, which is then at the start of what was read ahead; `None` at the end.
///
/// If a line feed was read ahead, nothing is read. Else what is buffered is written before the source is read: so no
/// answer waits for input. `TooLong` applies to a last line without a line feed, too. No byte is consumed.
pub fn next_line<R: Source, W: Sink>(
    lines: &mut LineReader,
    source: &mut R,
    output: &mut Output<'_, W>,
) -> Result<Option<usize>, LineFault>
    ensures kept { ahead lines.new (R.seen source.new).left ≡ ahead lines.old (R.seen source.old).left }
    ensures ready { ¬ HasNoLineFeed lines.old → (lines.new ≡ lines.old) × (source.new ≡ source.old) }
    ensures line { IfOk result (λ found. IfSome found (IsFirstLine lines.new (R.seen source.new).left)) }
    ensures short { IfOk result (λ found. IfSome found (λ count. count ≤ MAX_LINE)) }
    ensures end { result ≡ Ok None → IsAtEnd (ahead lines.new (R.seen source.new).left) }
    ensures too_long { result ≡ Err LineFault.TooLong
        → IsLongerThan MAX_LINE (ahead lines.new (R.seen source.new).left) }
    ensures written { result ≢ Err LineFault.Write
        → Tells (told_by W.seen output.old) (told_by W.seen output.new) [] }
    ensures write { result ≡ Err LineFault.Write
        → TellsPart (told_by W.seen output.old) (told_by W.seen output.new) [] SendFault.Write }
    ensures read { result ≡ Err LineFault.Read → (R.seen source.old).failures < (R.seen source.new).failures }
    ensures well { result ≢ Err LineFault.Read → (R.seen source.new).failures ≡ (R.seen source.old).failures }
{
    let mut searched = 0;
    loop {
        if let Some(count) = find_line(lines.buffered(), searched) {
            return if count > MAX_LINE {
                Err(LineFault::TooLong)
            } else {
                Ok(Some(count))
            };
        }
        searched = lines.buffered().len();
        if searched > MAX_LINE {
            return Err(LineFault::TooLong);
        }
        if !read_on(lines, source, output)? {
            return Ok(if searched > 0 { Some(searched) } else { None });
        }
    }
}

/// Whether another byte is there. If nothing was read ahead it reads the source, after writing what is buffered, as
/// [`next_line`] does.
pub fn more_begins<R: Source, W: Sink>(
    lines: &mut LineReader,
    source: &mut R,
    output: &mut Output<'_, W>,
) -> Result<bool, LineFault>
    ensures kept { ahead lines.new (R.seen source.new).left ≡ ahead lines.old (R.seen source.old).left }
    ensures more { result ≡ Ok true → 0 < length lines.new }
    ensures end { result ≡ Ok false → IsAtEnd (ahead lines.new (R.seen source.new).left) }
    ensures written { result ≢ Err LineFault.Write
        → Tells (told_by W.seen output.old) (told_by W.seen output.new) [] }
    ensures write { result ≡ Err LineFault.Write
        → TellsPart (told_by W.seen output.old) (told_by W.seen output.new) [] SendFault.Write }
    ensures read { result ≡ Err LineFault.Read → (R.seen source.old).failures < (R.seen source.new).failures }
    ensures well { result ≢ Err LineFault.Read → (R.seen source.new).failures ≡ (R.seen source.old).failures }
    ensures short { result ≢ Err LineFault.TooLong }
{
    if !lines.buffered().is_empty() {
        return Ok(true);
    }
    read_on(lines, source, output)
}
