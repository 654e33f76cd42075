//! The stack of operands.

ghost use Rattle.std.specs.Prelude.{◌≡◌, ◌<◌, ◌≤◌, ◌-◌, ◌++◌, ◌∷◌, ◌==◌, [], length, take, slice_get};

use std::marker::Model;

/// The operands that a stack has room for (Adobe Type 1 Font Format 1.1, chapter 6).
const OPERANDS: usize = 24;

/// The operands, the bottom first. A place above the top keeps what stood there, so clearing the stack writes no place.
#[derive(Drop)]
pub(crate) struct OperandStack {
    places: [i64; OPERANDS],
    size: usize,
}

impl Model for OperandStack {
    ghost use Rattle.std.specs.Prelude.{◌≡◌, ◌≤◌, ℤ, List, length, take};

    ghost Value = { List ℤ };

    ghost view = { λ s. take s.size s.places };

    ghost invariant = { λ s. (s.size ≤ 24) × (length s.places ≡ 24) };
}

impl OperandStack {
    /// No operand.
    pub(crate) fn new() -> OperandStack
        ensures { result ≡ [] }
    {
        OperandStack {
            places: [0; OPERANDS],
            size: 0,
        }
    }

    /// How many operands there are.
    #[inline(always)]
    pub(crate) fn len(&self) -> usize
        ensures value { result ≡ length self.now }
        ensures fits { result ≤ 24 }
    {
        self.size
    }

    /// Whether there is no room left.
    #[inline(always)]
    pub(crate) fn is_full(&self) -> bool
        ensures value { result ≡ (length self.now == 24) }
        ensures fits { length self.now ≤ 24 }
    {
        self.size == OPERANDS
    }

    /// The operands.
    #[inline(always)]
    pub(crate) fn as_slice(&self) -> &[i64]
        ensures { result.now ≡ self.now }
    {
        &self.places[..self.size]
    }

    /// Puts an operand on top. There must be room.
    #[inline(always)]
    pub(crate) fn push(&mut self, operand: i64)
        requires { length self.old < 24 }
        ensures { self.new ≡ self.old ++ operand ∷ [] }
    {
        let size = self.size;
        self.places[size] = operand;
        self.size = size + 1;
    }

    /// Takes the operand on top, if there is one.
    #[inline(always)]
    pub(crate) fn pop(&mut self) -> Option<i64>
        ensures value { result ≡ slice_get self.old (length self.old - 1) }
        ensures rest { self.new ≡ take (length self.old - 1) self.old }
    {
        if self.size == 0 {
            return None;
        }
        self.size -= 1;
        Some(self.places[self.size])
    }

    /// Keeps so many operands at most, those at the bottom.
    #[inline(always)]
    pub(crate) fn truncate(&mut self, kept: usize)
        ensures { self.new ≡ take kept self.old }
    {
        if kept < self.size {
            self.size = kept;
        }
    }

    /// Takes all operands away.
    #[inline(always)]
    pub(crate) fn clear(&mut self)
        ensures { self.new ≡ [] }
    {
        self.size = 0;
    }
}
