//! The operations from a position on.

ghost use Rattle.std.specs.Prelude.{◌≡◌, ◌-◌, ◌+◌, ◌^◌, ◌<◌, ◌≤◌, ◌++◌, ◌∷◌, ◌↔◌, [], ℕ, IsTrue, drop, length, slice_index_or};
ghost use Rattle.std.specs.Prelude.{IfOk, OnOk};
ghost use Rattle.lgm_query.specs.Touched.{HasTouched};
ghost use Rattle.lgm_timeline.specs.History.{end, next_position, since, LeadsFrom, IsTrimmed};

use lgm_query::TouchedKeys;
use lgm_store::{Op, ROWS_TOGETHER};
use std::alloc::{AllocError, Global};
use std::collections::VecDeque;
use std::marker::Model;

/// Operations in order, and how many came before the first of them, its position.
#[derive(Drop)]
pub(crate) struct OpLog {
    base: u64,
    ops: VecDeque<Op>,
}

impl Model for OpLog {
    ghost use Rattle.std.specs.Prelude.{◌-◌, ◌+◌, ◌^◌, ◌<◌, length};
    ghost use Rattle.std.specs.VecDeque.{deque_len, deque_capacity};
    ghost use Rattle.lgm_timeline.specs.History.{Log};

    ghost Value = { Log };

    ghost view = { λ l. record { base = l.base; ops = l.ops.items; spare = deque_capacity l.ops - deque_len l.ops } };

    ghost invariant = { λ l. l.base + length l.ops.items < 2 ^ 64 };
}

/// Of so many operations that were applied last, the processor's cache still has the rows.
const CACHED: usize = 4096;

/// Removes the first operations. If they are many, the rows of some are read together, since each loses an owner.
fn forget(ops: &mut VecDeque<Op>, count: usize)
    ensures { ops.new.items ≡ drop count ops.old.items }
{
    let many = count > CACHED;
    for place in 0..count {
        if many && place % ROWS_TOGETHER == 0 {
            for op in ops.iter().take(ROWS_TOGETHER) {
                op.prefetch();
            }
        }
        ops.pop_front();
    }
}

impl OpLog {
    /// No operations, from the first position on.
    pub(crate) fn new(alloc: Global) -> OpLog
        ensures base { result.base ≡ 0 }
        ensures ops { result.ops ≡ [] }
    {
        OpLog {
            base: 0,
            ops: VecDeque::new(alloc),
        }
    }

    /// How many operations there are.
    pub(crate) fn len(&self) -> usize
        ensures { result ≡ length self.now.ops }
    {
        self.ops.len()
    }

    /// The position behind the last operation.
    pub(crate) fn end(&self) -> u64
        ensures { result ≡ end self.now }
    {
        self.base + self.ops.len() as u64
    }

    /// Whether all operations behind a position are there, and it isn't the last one.
    pub(crate) fn leads_from(&self, position: u64) -> bool
        ensures { IsTrue result ↔ LeadsFrom self.now position }
    {
        self.base <= position && position < u64::MAX
    }

    /// The operation at a position.
    pub(crate) fn op(&self, position: u64) -> &Op
        requires from { self.now.base ≤ position }
        requires within { position < end self.now }
        ensures { result.now ≡ slice_index_or self.now.ops (position - self.now.base) result.now }
    {
        &self.ops[(position - self.base) as usize]
    }

    /// The operation so many positions further, if it is there.
    pub(crate) fn ahead(&self, position: u64, further: usize) -> Option<&Op> {
        let place = position.checked_sub(self.base)? as usize;
        self.ops.get(place.checked_add(further)?)
    }

    /// Ensures that there is room for one more operation.
    pub(crate) fn reserve(&mut self) -> Result<(), AllocError>
        ensures same { IsTrimmed self.old self.new }
        ensures base { self.new.base ≡ self.old.base }
        ensures room { OnOk result (0 < self.new.spare) }
    {
        self.ops.reserve(1)
    }

    /// Whether there is room for one more operation.
    pub(crate) fn has_room(&self) -> bool
        ensures { IsTrue result ↔ (0 < self.now.spare) }
    {
        self.ops.len() < self.ops.capacity()
    }

    /// Adds an operation.
    pub(crate) fn push(&mut self, op: Op)
        requires room { 0 < self.old.spare }
        requires last { end self.old < 2 ^ 64 - 1 }
        ensures base { self.new.base ≡ self.old.base }
        ensures ops { self.new.ops ≡ self.old.ops ++ op ∷ [] }
    {
        self.ops.push_back_reserved(op);
    }

    /// Counts an operation that isn't kept, nor are those before it.
    pub(crate) fn skip(&mut self)
        ensures base { self.new.base ≡ next_position (end self.old) }
        ensures further { end self.old ≤ self.new.base }
        ensures ops { self.new.ops ≡ [] }
    {
        self.base = self.end().saturating_add(1);
        self.ops.clear();
    }

    /// The keys that the operations from a position on touch.
    pub(crate) fn touched_since(
        &self,
        alloc: Global,
        position: u64,
    ) -> Result<TouchedKeys, AllocError>
        requires from { self.now.base ≤ position }
        requires within { position ≤ end self.now }
        ensures { IfOk result (λ keys. HasTouched (since self.now position) keys) }
    {
        let mut keys = TouchedKeys::new(alloc);
        for place in position..self.end() {
            keys.touch(self.op(place))?;
        }
        Ok(keys)
    }

    /// Forgets the operations before a position, and frees their room if none is left.
    pub(crate) fn trim(&mut self, position: u64)
        ensures trimmed { IsTrimmed self.old self.new }
        ensures until { (kept : ℕ) → self.old.base ≤ kept → position ≤ kept → self.new.base ≤ kept }
        ensures few { length self.new.ops ≤ end self.old - position }
    {
        let position = position.min(self.end());
        if self.base < position {
            forget(&mut self.ops, (position - self.base) as usize);
            self.base = position;
        }
        if self.ops.is_empty() {
            self.ops.shrink_to_fit();
        }
    }
}
