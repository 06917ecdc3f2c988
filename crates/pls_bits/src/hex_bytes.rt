//! Hex digits as bytes, all of a word at once.

ghost use Rattle.std.specs.Prelude.{◌≡◌, length, true};
ghost use Rattle.std.specs.Int.Digits.{AllBelowBase};
ghost use Rattle.std.specs.List.{list_all};
ghost use Rattle.hex.specs.Hex.{encode_lower};
ghost use Rattle.pls_bits.specs.Hex.{is_lower_digit};

use std::simd::prelude::*;

/// The eight bytes whose hex text the sixteen digits are. The codes of the letters begin at 97,
/// which is 6 * 16 + 1, those of the others at 48, which is 3 * 16.
#[inline(always)]
pub(crate) fn eight_bytes(digits: u8x16) -> u8x8
    requires long { length digits ≡ 16 }
    requires lower { list_all is_lower_digit digits ≡ true }
    ensures small { AllBelowBase 256 result }
    ensures text { encode_lower result ≡ digits }
{
    let letters = digits >> u8x16::splat(6);
    let values = (digits & u8x16::splat(15)) + letters * u8x16::splat(9);
    let high = values.shuffle(values, [0, 2, 4, 6, 8, 10, 12, 14]);
    let low = values.shuffle(values, [1, 3, 5, 7, 9, 11, 13, 15]);
    high * u8x8::splat(16) + low
}
