//! How long codes are.

ghost use Rattle.std.specs.Prelude.{◌≡◌, []};
ghost use Rattle.pls_scheme.specs.Length.{code_length, codes_length};
ghost use Rattle.pls_streams.specs.Steps.{capped};

use pls_bits::{MAX_CODED, NumCode};

/// How many bits the code of a number has, and `u64::MAX` where the number is too great for one. It
/// takes no memory.
pub fn code_length<C: NumCode>(number: u64) -> u64
    ensures { result ≡ code_length C.code number }
{
    if number <= MAX_CODED {
        C::length(number)
    } else {
        u64::MAX
    }
}

/// How many bits the codes of numbers have together, and `u64::MAX` where they have more, or where
/// a number is too great for one. It takes no memory.
pub fn codes_length<C: NumCode>(numbers: &[u64]) -> u64
    ensures { result ≡ capped (codes_length C.code [] numbers.now) }
{
    let mut bits: u64 = 0;
    for number in numbers {
        bits = bits.saturating_add(code_length::<C>(*number));
    }
    bits
}
