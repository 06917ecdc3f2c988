//! Numbers at the front of a text, each read as its digits come.

ghost use Rattle.std.specs.Prelude.{◌≡◌, ◌≢◌, ℕ, ◌+◌, ◌<◌, ◌≤◌, ◌^◌, List, ◌∷◌, ◌++◌, IfNone, IfSome, decimal};
ghost use Rattle.pls_lines.specs.inner.Digits.{AreDigitsInFront, BeginsDigit};

use crate::words::after_byte;
use pls_configuration::MAX_WORD;

/// A number up to `most` at the front of a text, and what follows the byte `end` behind it; `None`
/// where they do not stand there.
#[inline(always)]
pub fn number_before(text: &[u8], end: u8, most: u64) -> Option<(u64, &[u8])>
    requires no_digit { end < 48 }
    requires few { most ≤ 2 ^ 63 }
    ensures stands { IfSome result (λ parts. text.now ≡ decimal parts.0 ++ end ∷ parts.1.now) }
    ensures within { IfSome result (λ parts. parts.0 ≤ most) }
    ensures none { IfNone result ((number : ℕ) (rest : List ℕ) → number ≤ most
        → text.now ≢ decimal number ++ end ∷ rest) }
{
    let (number, behind) = leading_number(text, most)?;
    let rest = after_byte(behind, end)?;
    Some((number, rest))
}

/// A number below 2^32 at the front of a text, and what follows the byte `end` behind it; `None`
/// where they do not stand there.
#[inline(always)]
pub fn u32_before(text: &[u8], end: u8) -> Option<(u32, &[u8])>
    requires no_digit { end < 48 }
    ensures stands { IfSome result (λ parts. text.now ≡ decimal parts.0 ++ end ∷ parts.1.now) }
    ensures within { IfSome result (λ parts. parts.0 < 2 ^ 32) }
    ensures none { IfNone result ((number : ℕ) (rest : List ℕ) → number < 2 ^ 32
        → text.now ≢ decimal number ++ end ∷ rest) }
{
    let (number, rest) = number_before(text, end, MAX_WORD)?;
    Some((number as u32, rest))
}

// Takes all digits; `None` if there are none, if a zero leads others, or above `most`.
#[inline]
fn leading_number(text: &[u8], most: u64) -> Option<(u64, &[u8])>
    requires few { most ≤ 2 ^ 63 }
    ensures stands { IfSome result (λ parts. text.now ≡ decimal parts.0 ++ parts.1.now) }
    ensures all { IfSome result (λ parts. BeginsDigit parts.1.now → ⊥) }
    ensures within { IfSome result (λ parts. parts.0 ≤ most) }
    ensures none { IfNone result ((number : ℕ) (rest : List ℕ) → number ≤ most
        → (BeginsDigit rest → ⊥) → text.now ≢ decimal number ++ rest) }
{
    let (first, behind) = leading_digit(text)?;
    let (number, rest) = with_digits(first, behind);
    let count = text.len() - rest.len();
    if count > MOST_DIGITS || number > most {
        return None;
    }
    if first == 0 && count > 1 {
        return None;
    }
    Some((number, rest))
}

// No number below 2^63 has more digits, and none of so many digits reaches 2^64.
const MOST_DIGITS: usize = 19;

// The first digit of a number and all digits that follow it as a number, which counts only where
// they are at most `MOST_DIGITS`, and what stands behind them.
#[inline(always)]
fn with_digits(first: u64, text: &[u8]) -> (u64, &[u8])
    requires { first < 10 }
    ensures { AreDigitsInFront ((48 + first) ∷ text.now) result.0 result.1.now }
{
    let mut number = first;
    let mut rest = text;
    while let Some((digit, behind)) = leading_digit(rest) {
        number = number.wrapping_mul(10).wrapping_add(digit);
        rest = behind;
    }
    (number, rest)
}

#[inline(always)]
fn leading_digit(text: &[u8]) -> Option<(u64, &[u8])>
    ensures stands { IfSome result (λ parts. text.now ≡ (48 + parts.0) ∷ parts.1.now) }
    ensures within { IfSome result (λ parts. parts.0 < 10) }
    ensures none { IfNone result (BeginsDigit text.now → ⊥) }
{
    let (first, rest) = text.split_first()?;
    let digit = u64::from(*first).wrapping_sub(u64::from(b'0'));
    if digit < 10 {
        Some((digit, rest))
    } else {
        None
    }
}
