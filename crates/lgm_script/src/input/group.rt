//! Lines that are answered together.

ghost use Rattle.std.specs.Prelude.{◌≡◌, ◌≤◌, ◌<◌, ℕ, List, Option, length, take, IfOk, IfSome};
ghost use Rattle.lgm_script.specs.Lines.{IsFirstLine};
ghost use Rattle.lgm_script.specs.Command.{command_of};
ghost use Rattle.lgm_script.specs.Groups.{AskNext, AreAlike, IsOfKind};

use crate::grammar::{LineForm, LineKind};
use crate::input::line_reader::{MAX_LINE, find_line};
use std::alloc::{AllocError, Global};

/// The maximum number of items, or of questions, that are answered together. What is prepared for them is kept until
/// their turn.
const LINES_TOGETHER: usize = 1_024;

/// Consecutive lines within what was read ahead.
#[derive(Drop)]
pub struct Group<'a> {
    /// The kind of all of them.
    pub kind: LineKind,
    /// The lines, classified.
    pub lines: Vec<LineForm<'a>>,
    /// Their length in bytes, with their line feeds.
    pub len: usize,
}

/// The next line and its length in bytes, if it is complete, within the limit, and of this kind.
fn next_of_kind(bytes: &[u8], kind: LineKind) -> Option<(LineForm<'_>, usize)>
    ensures line { IfSome result (λ next. (left : Option (List ℕ)) → IsFirstLine bytes.now left next.1) }
    ensures within { IfSome result (λ next. next.1 < length bytes.now) }
    ensures short { IfSome result (λ next. next.1 ≤ MAX_LINE) }
    ensures asked { IfSome result (λ next. next.0 ≡ command_of (take next.1 bytes.now)) }
    ensures kind { IfSome result (λ next. IsOfKind kind next.0) }
{
    let len = find_line(bytes, 0)?;
    if len > MAX_LINE {
        return None;
    }
    let line = LineForm::of(&bytes[..len]);
    if line.kind() != kind {
        return None;
    }
    Some((line, len))
}

/// The first line of what was read ahead, which has `first` bytes, with the complete lines of its kind that follow it:
/// at most `most` and at most 1,024 lines of items or of questions; others are answered alone.
pub fn next_group(
    alloc: Global,
    buffered: &[u8],
    first: usize,
    most: usize,
) -> Result<Group<'_>, AllocError>
    requires within { first ≤ length buffered.now }
    requires short { first ≤ 140000 }
    requires most { 0 < most }
    ensures lines { IfOk result (λ group. AskNext buffered.now first group.len group.lines.items) }
    ensures alike { IfOk result (λ group. AreAlike group.kind group.lines.items) }
    ensures few { IfOk result (λ group. length group.lines.items ≤ most) }
    ensures together { IfOk result (λ group. length group.lines.items ≤ 1024) }
{
    let line = LineForm::of(&buffered[..first]);
    let kind = line.kind();
    let most = match kind {
        LineKind::Item | LineKind::Question => most.min(LINES_TOGETHER),
        LineKind::Other => 1,
    };
    let mut lines = Vec::new(alloc);
    lines.push(line)?;
    let mut len = buffered.len().min(first + 1);
    for _count in 1..most {
        let Some((line, count)) = next_of_kind(&buffered[len..], kind) else {
            break;
        };
        lines.push(line)?;
        len += count + 1;
    }
    Ok(Group { kind, lines, len })
}
