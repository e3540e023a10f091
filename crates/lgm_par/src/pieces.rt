//! The chunks of a slice.

ghost use Rattle.std.specs.Prelude.{◌≡◌, ◌+◌, ◌<◌, ◌≤◌, IfOk};
ghost use Rattle.std.specs.Fn.{FnReturnsAt};
ghost use Rattle.lgm_par.specs.inner.Chunks.{piece_start, piece_of};
ghost use Rattle.lgm_par.specs.Pieces.{AcceptsItem, AcceptsAll, GivesAll};

use std::alloc::{AllocError, Global};

/// The start of a chunk.
#[tactic(auto, unfolding(crate::specs::inner::Chunks::piece_start))]
fn start_of(len: usize, pieces: usize, piece: usize) -> usize
    requires some { 0 < pieces }
    requires within { piece ≤ pieces }
    ensures is { result ≡ piece_start len pieces piece }
    ensures bound { result ≤ len }
{
    piece * (len / pieces) + piece.min(len % pieces)
}

/// The items of a chunk.
#[tactic(auto, using(crate::proofs::PieceLaws::starts_rise))]
pub(crate) fn piece_at<T>(items: &[T], pieces: usize, piece: usize) -> &[T]
    requires { piece < pieces }
    ensures { result.now ≡ piece_of items.now pieces piece }
{
    let start = start_of(items.len(), pieces, piece);
    let end = start_of(items.len(), pieces, piece + 1);
    let (_, rest) = items.split_at(start);
    let (part, _) = rest.split_at(end - start);
    part
}

/// The result for one item.
fn answer_at<T, A, F: Fn(&T) -> A>(f: &F, item: &T) -> A
    requires { AcceptsItem F.Fn f.now item.now }
    ensures { FnReturnsAt F.Fn f.now item.now result }
{
    f(item)
}

/// The results for one chunk.
pub(crate) fn map_piece<T, A: Drop, F: Fn(&T) -> A>(
    alloc: Global,
    items: &[T],
    f: &F,
) -> Result<Vec<A>, AllocError>
    requires { AcceptsAll F.Fn f.now items.now }
    ensures { IfOk result (λ answers. GivesAll F.Fn f.now items.now answers.items) }
{
    let mut answers = Vec::with_capacity(alloc, items.len())?;
    for item in items {
        answers.push(answer_at(f, item))?;
    }
    Ok(answers)
}
