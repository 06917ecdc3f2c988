//! Labels that are a fixed count of numbers in code.

ghost use Rattle.std.specs.Prelude.{◌≡◌, ℕ, [], List};
ghost use Rattle.pls_numbers.specs.Fixed.{AreNumbers, so_many};
ghost use Rattle.pls_numbers.specs.Numbers.{left_in};
ghost use Rattle.pls_numbers.specs.Shape.{if_clean};

use crate::format::{Format, ReadsInPlace};
use crate::numbers::Numbers;
use crate::writing::append_numbers;
use pls_bits::{BitBuf, Bits, NumCode};
use pls_streams::NoMemory;
use std::alloc::Global;
use std::marker::PhantomData;

/// What is `N` numbers.
pub trait OfNumbers<const N: usize>: Drop {
    // Its numbers.
    ghost numbers: { Self → List ℕ };

    // What so many numbers are.
    ghost of_numbers: { List ℕ → Self };

    /// Its numbers, in the order in which they are written.
    fn numbers(&self) -> [u64; N]
        ensures { result ≡ numbers self.now };

    /// What the numbers are.
    fn of_numbers(list: &[u64; N]) -> Self
        ensures { result ≡ of_numbers list.now };

    ghost numbers_law: { AreNumbers N numbers of_numbers };
}

/// The format of labels that are `N` numbers: the code of each, one behind the other.
#[derive(Clone, Copy, Debug, PartialEq, Eq)]
pub struct NumbersFormat<L, const N: usize> {
    label: PhantomData<L>,
}

impl<L, const N: usize> Default for NumbersFormat<L, N> {
    fn default() -> Self {
        NumbersFormat { label: PhantomData }
    }
}

impl<L: OfNumbers<N>, const N: usize> Format for NumbersFormat<L, N> {
    ghost use Rattle.pls_numbers.specs.Fixed.{fixed_shape};
    ghost use Rattle.pls_numbers.specs.laws.FixedLaws.{fixed_law};

    type Label = L;

    ghost shape = { λ _. fixed_shape N L.numbers L.of_numbers };

    fn read<C: NumCode>(&self, _alloc: Global, bits: &Bits<'_>) -> Result<Option<L>, NoMemory> {
        Ok(self.read_in_place::<C>(bits))
    }

    fn append<C: NumCode>(&self, bits: &mut BitBuf, label: &L) -> Result<(), NoMemory> {
        append_numbers::<C>(bits, &label.numbers())
    }

    ghost numbers_law = { λ _. fixed_law N L.numbers L.of_numbers L.numbers_law };
}

impl<L: OfNumbers<N>, const N: usize> ReadsInPlace for NumbersFormat<L, N> {
    fn read_in_place<C: NumCode>(&self, bits: &Bits<'_>) -> Option<L> {
        match read_numbers::<C, N>(bits) {
            Some(numbers) => Some(L::of_numbers(&numbers)),
            None => None,
        }
    }
}

/// The `N` numbers whose codes the bits are, or `None` where they are no such codes, read to the
/// last bit. It takes no memory.
#[inline(always)]
pub fn read_numbers<C: NumCode, const N: usize>(bits: &Bits<'_>) -> Option<[u64; N]>
    ensures { result ≡ if_clean (so_many N) (left_in C.takes [] bits.now) }
{
    let mut left = Numbers::<C>::of(bits);
    let mut numbers = [0; N];
    for i in 0..N {
        numbers[i] = left.next()?;
    }
    if left.is_end() { Some(numbers) } else { None }
}
