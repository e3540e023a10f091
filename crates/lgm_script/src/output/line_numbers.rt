//! Decimal digits of the numbers of lines.

ghost use Rattle.std.specs.Prelude.{◌≡◌, ◌++◌, OnOk, OnErr};
ghost use Rattle.std.specs.Fmt.{decimal};
ghost use Rattle.lgm_script.specs.inner.Front.{IsFront};

use std::alloc::AllocError;
use std::marker::Model;

/// The most digits that a number has.
const MAX_DIGITS: usize = 20;

/// The digits of the number of a line, kept for the next one, which mostly differs in the last digit alone.
///
/// So digits are mostly copied from where they were written some lines ago: what was just written is read only when it
/// has reached the processor's cache.
#[derive(Drop)]
pub(crate) struct LineNumbers {
    /// The number without its last digit.
    tens: u64,
    /// The digits of that, of which the first `len` are used.
    digits: [u8; MAX_DIGITS],
    len: usize,
}

impl Model for LineNumbers {
    ghost use Rattle.std.specs.Prelude.{ℕ, take, ◌≡◌, ◌≤◌};
    ghost use Rattle.std.specs.Fmt.{decimal};
    ghost use Rattle.lgm_script.specs.declared.output.line_numbers.TheConstants.{MAX_DIGITS};

    ghost Value = { ℕ };

    ghost view = { λ n. n.tens };

    ghost invariant = { λ n. (n.len ≤ MAX_DIGITS) × (take n.len n.digits ≡ decimal n.tens) };
}

impl LineNumbers {
    /// No line was numbered yet.
    pub(crate) fn new() -> LineNumbers {
        LineNumbers {
            tens: 0,
            digits: [b'0'; MAX_DIGITS],
            len: 1,
        }
    }

    /// Appends a number in decimal digits. If memory runs out a prefix of them may be appended.
    #[inline(always)]
    pub(crate) fn push(&mut self, text: &mut Vec<u8>, number: u64) -> Result<(), AllocError>
        ensures ok { OnOk result (text.new.items ≡ text.old.items ++ decimal number) }
        ensures err { OnErr result (IsFront text.old.items text.new.items) }
    {
        let tens = number / 10;
        if tens > 0 {
            self.push_tens(text, tens)?;
        }
        text.reserve(1)?;
        text.push_reserved(b'0' + (number % 10) as u8);
        Ok(())
    }

    /// Appends the digits before the last one.
    #[inline(always)]
    fn push_tens(&mut self, text: &mut Vec<u8>, tens: u64) -> Result<(), AllocError>
        ensures ok { OnOk result (text.new.items ≡ text.old.items ++ decimal tens) }
        ensures err { OnErr result (text.new.items ≡ text.old.items) }
    {
        if self.tens != tens {
            self.set(tens);
        }
        text.extend_from_slice(&self.digits[..self.len])
    }

    /// Keeps the digits of a number.
    fn set(&mut self, tens: u64)
        ensures { self.new ≡ tens }
    {
        let mut buffer = itoa::Buffer::new();
        let digits = buffer.format(tens).as_bytes();
        self.tens = tens;
        self.len = digits.len();
        self.digits[..digits.len()].copy_from_slice(digits);
    }
}
