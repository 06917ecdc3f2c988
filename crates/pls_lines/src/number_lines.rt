//! Lines of a word and numbers.

ghost use Rattle.std.specs.Prelude.{◌≡◌, ◌≢◌, ℕ, ◌≤◌, ◌^◌, List, [], ◌∷◌, ◌++◌, IfNone, IfSome, decimal};
ghost use Rattle.pls_lines.specs.Text.{line_of};

use crate::numbers::number_before;
use crate::words::after_word;

/// The number up to `most` of a line at the front of a text that is a word and this number, and
/// what follows its line feed; `None` where no such line stands there.
#[inline(always)]
pub fn one_number<'a>(text: &'a [u8], word: &[u8], most: u64) -> Option<(u64, &'a [u8])>
    requires few { most ≤ 2 ^ 63 }
    ensures stands { IfSome result (λ read.
        text.now ≡ line_of (word.now ∷ decimal read.0 ∷ []) ++ 10 ∷ read.1.now) }
    ensures within { IfSome result (λ read. read.0 ≤ most) }
    ensures none { IfNone result ((number : ℕ) (rest : List ℕ) → number ≤ most
        → text.now ≢ line_of (word.now ∷ decimal number ∷ []) ++ 10 ∷ rest) }
{
    let words = after_word(text, word)?;
    let (number, rest) = number_before(words, b'\n', most)?;
    Some((number, rest))
}

/// The numbers up to `most` each of a line at the front of a text that is a word and these numbers,
/// and what follows its line feed; `None` where no such line stands there.
#[inline(always)]
pub fn two_numbers<'a>(text: &'a [u8], word: &[u8], most: u64) -> Option<(u64, u64, &'a [u8])>
    requires few { most ≤ 2 ^ 63 }
    ensures stands { IfSome result (λ read. text.now
        ≡ line_of (word.now ∷ decimal read.0 ∷ decimal read.1 ∷ []) ++ 10 ∷ read.2.now) }
    ensures first { IfSome result (λ read. read.0 ≤ most) }
    ensures second { IfSome result (λ read. read.1 ≤ most) }
    ensures none { IfNone result ((a b : ℕ) (rest : List ℕ) → a ≤ most → b ≤ most
        → text.now ≢ line_of (word.now ∷ decimal a ∷ decimal b ∷ []) ++ 10 ∷ rest) }
{
    let words = after_word(text, word)?;
    let (first, last) = number_before(words, b' ', most)?;
    let (second, rest) = number_before(last, b'\n', most)?;
    Some((first, second, rest))
}
