//! The numbers that are left in a list of bits.

ghost use Rattle.std.specs.Prelude.{◌≡◌, ◌≤◌, [], IfNone, IfSome};
ghost use Rattle.pls_bits.specs.declared.num_code.TheConstants.{MAX_CODED};
ghost use Rattle.pls_numbers.specs.Numbers.{NumbersLeft, is_end, left_in, with_number};

use pls_bits::{Bits, Cursor, MAX_CODED, NumCode};
use std::marker::{Model, PhantomData};

/// A place in a range of bits, seen as the numbers that are left and whether nothing stands behind
/// them. None of its calls takes memory.
#[derive(Drop)]
pub struct Numbers<'a, C: NumCode> {
    cursor: Cursor<'a>,
    code: PhantomData<C>,
}

impl<'a, C: NumCode> Model for Numbers<'a, C> {
    ghost use Rattle.std.specs.Prelude.{[]};
    ghost use Rattle.pls_numbers.specs.Numbers.{NumbersLeft, left_in};

    ghost Value = { NumbersLeft };

    ghost view = { λ numbers. left_in C.takes [] numbers.cursor };
}

impl<'a, C: NumCode> Numbers<'a, C> {
    /// All numbers of these bits.
    #[inline(always)]
    pub fn of(bits: &Bits<'a>) -> Self
        ensures { result ≡ left_in C.takes [] bits.now }
    {
        Numbers {
            cursor: bits.cursor(),
            code: PhantomData,
        }
    }

    /// The number that comes next, which is then behind, or `None` where none is left.
    #[inline(always)]
    pub fn next(&mut self) -> Option<u64>
        ensures next { IfSome result (λ number. self.old ≡ with_number number self.new) }
        ensures small { IfSome result (λ number. number ≤ MAX_CODED) }
        ensures none { IfNone result (self.old.numbers ≡ []) }
        ensures stays { IfNone result (self.new ≡ self.old) }
    {
        C::read(&mut self.cursor)
    }

    /// Passes the number that comes next where it is known to be `number`, which is not read for
    /// that. Where another comes, or none, nothing is known of what is left.
    #[inline(always)]
    pub fn pass(&mut self, number: u64)
        ensures { (left : NumbersLeft) → self.old ≡ with_number number left → self.new ≡ left }
    {
        self.cursor.take(C::length(number.min(MAX_CODED)));
    }

    /// Whether nothing is left.
    #[inline(always)]
    pub fn is_end(&self) -> bool
        ensures { result ≡ is_end self.now }
    {
        self.cursor.rest().is_empty()
    }

    /// The bits that are left.
    #[inline(always)]
    pub fn rest(&self) -> Bits<'a>
        ensures { left_in C.takes [] result ≡ self.now }
    {
        self.cursor.rest()
    }
}
