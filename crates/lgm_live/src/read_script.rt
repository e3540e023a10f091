//! Reading a whole script before any of it is answered.

ghost use Rattle.std.specs.Prelude.{◌≡◌, ◌≤◌, ◌+◌, ◌<◌, ◌^◌, [], length, take, drop, OnOk};
ghost use Rattle.lgm_script.specs.Output.{told_by};
ghost use Rattle.lgm_script.specs.Command.{command_of};
ghost use Rattle.lgm_live.specs.inner.Gathered.{with_line};
ghost use Rattle.lgm_live.specs.inner.Reading.{AreAdded, IsRead, HasRead};

use crate::parsed_script::ParsedScript;
use lgm_answers::{MAX_LINES, RunFault};
use lgm_script::{LineReader, Output, ROOM, Sink, Source, more_begins, next_line, parse};
use std::alloc::{AllocError, Global};

/// Adds the command of the first line, which has this many bytes, and drops the line.
fn add_first_line(
    alloc: Global,
    count: usize,
    lines: &mut LineReader,
    parsed: &mut ParsedScript,
) -> Result<(), AllocError>
    requires within { count ≤ length lines.old }
    requires some { 0 < length parsed.old.lists }
    requires few { parsed.old.payments + 1 < 2 ^ 64 }
    ensures lines { OnOk result (lines.new ≡ drop (count + 1) lines.old) }
    ensures parsed { OnOk result (parsed.new ≡ with_line parsed.old (command_of (take count lines.old))) }
{
    let bytes = lines.buffered();
    let request = parse(alloc, &bytes[..count])?;
    let len = bytes.len().min(count + 1);
    lines.drop_front(len);
    parsed.add_command(alloc, request)
}

/// Reads the lines of a script, of which nothing was read yet, and adds their requests. The output buffer is empty, so
/// nothing is written meanwhile.
fn read_lines<R: Source, W: Sink>(
    alloc: Global,
    lines: &mut LineReader,
    source: &mut R,
    output: &mut Output<'_, W>,
    parsed: &mut ParsedScript,
) -> Result<(), RunFault>
    requires lines { lines.old ≡ [] }
    requires some { 0 < length parsed.old.lists }
    requires none { parsed.old.payments ≡ 0 }
    requires buffered { output.old.buffered.now.items ≡ [] }
    ensures { HasRead (R.seen source.old) (R.seen source.new) (told_by W.seen output.old)
        (told_by W.seen output.new) (λ _. AreAdded (R.seen source.old).left parsed.old parsed.new) result }
{
    let mut number = 0;
    while number < MAX_LINES {
        let Some(count) = next_line(lines, source, output)? else {
            return Ok(());
        };
        add_first_line(alloc, count, lines, parsed)?;
        number += 1;
    }
    if more_begins(lines, source, output)? {
        return Err(RunFault::TooManyLines);
    }
    Ok(())
}

/// Reads a whole script, and returns its requests for this many workers. The output buffer is empty, so nothing is
/// written meanwhile.
pub(crate) fn read_script<R: Source, W: Sink>(
    alloc: Global,
    workers: usize,
    source: &mut R,
    output: &mut Output<'_, W>,
) -> Result<ParsedScript, RunFault>
    requires some { 0 < workers }
    requires buffered { output.old.buffered.now.items ≡ [] }
    ensures { HasRead (R.seen source.old) (R.seen source.new) (told_by W.seen output.old)
        (told_by W.seen output.new) (IsRead workers (R.seen source.old).left) result }
{
    let mut lines = LineReader::new(alloc, ROOM)?;
    let mut parsed = ParsedScript::new(alloc, workers)?;
    read_lines(alloc, &mut lines, source, output, &mut parsed)?;
    parsed.end_batch(alloc)?;
    Ok(parsed)
}
