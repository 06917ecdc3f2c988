//! Words and whole lines at the front of a text.

ghost use Rattle.std.specs.Prelude.{◌≡◌, ◌≢◌, ◌↔◌, ℕ, List, ◌∷◌, ◌++◌, length, IfNone, IfSome, IsTrue, MatchOption};

/// Whether a text is a word, which is short. Byte by byte: of a word whose length is known nothing
/// is left but the tests of its bytes.
#[inline(always)]
pub fn is_same(text: &[u8], word: &[u8]) -> bool
    ensures { IsTrue result ↔ (text.now ≡ word.now) }
{
    if text.len() != word.len() {
        return false;
    }
    for (place, byte) in word.iter().enumerate() {
        if text[place] != *byte {
            return false;
        }
    }
    true
}

/// What follows a word and one space at the front of a text; `None` where they do not stand there.
#[inline(always)]
pub fn after_word<'a>(text: &'a [u8], word: &[u8]) -> Option<&'a [u8]>
    ensures stands { IfSome result (λ rest. text.now ≡ word.now ++ 32 ∷ rest.now) }
    ensures none { IfNone result ((rest : List ℕ) → text.now ≢ word.now ++ 32 ∷ rest) }
{
    after_both(text, word, b' ')
}

/// What follows a line and its line feed at the front of a text; `None` where they do not stand
/// there.
#[inline(always)]
pub fn after_line<'a>(text: &'a [u8], line: &[u8]) -> Option<&'a [u8]>
    ensures stands { IfSome result (λ rest. text.now ≡ line.now ++ 10 ∷ rest.now) }
    ensures none { IfNone result ((rest : List ℕ) → text.now ≢ line.now ++ 10 ∷ rest) }
{
    after_both(text, line, b'\n')
}

/// What follows a byte that a text begins with; `None` where it begins with another, or is empty.
#[inline(always)]
pub fn after_byte(text: &[u8], byte: u8) -> Option<&[u8]>
    ensures stands { IfSome result (λ rest. text.now ≡ byte ∷ rest.now) }
    ensures none { IfNone result ((rest : List ℕ) → text.now ≢ byte ∷ rest) }
{
    let (first, rest) = text.split_first()?;
    if *first == byte { Some(rest) } else { None }
}

/// So many bytes at the front of a text, and what follows the byte `end` behind them; `None` where
/// the text has fewer bytes or another byte stands there.
pub fn bytes_before(text: &[u8], count: usize, end: u8) -> Option<(&[u8], &[u8])>
    ensures stands { IfSome result (λ parts. text.now ≡ parts.0.now ++ end ∷ parts.1.now) }
    ensures long { IfSome result (λ parts. length parts.0.now ≡ count) }
    ensures none { IfNone result ((word rest : List ℕ) → length word ≡ count
        → text.now ≢ word ++ end ∷ rest) }
{
    let (word, behind) = text.split_at_checked(count)?;
    let rest = after_byte(behind, end)?;
    Some((word, rest))
}

#[inline(always)]
fn after_both<'a>(text: &'a [u8], front: &[u8], byte: u8) -> Option<&'a [u8]>
    ensures stands { IfSome result (λ rest. text.now ≡ front.now ++ byte ∷ rest.now) }
    ensures none { IfNone result ((rest : List ℕ) → text.now ≢ front.now ++ byte ∷ rest) }
{
    after_byte(after_front(text, front)?, byte)
}

#[inline(always)]
fn after_front<'a>(text: &'a [u8], front: &[u8]) -> Option<&'a [u8]>
    ensures { MatchOption result ((rest : List ℕ) → text.now ≢ front.now ++ rest)
        (λ rest. text.now ≡ front.now ++ rest.now) }
{
    let (begin, rest) = text.split_at_checked(front.len())?;
    if is_same(begin, front) {
        Some(rest)
    } else {
        None
    }
}
