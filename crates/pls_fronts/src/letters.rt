//! Letters at the front of a text.

ghost use Rattle.std.specs.Prelude.{◌≡◌, drop, take};
ghost use Rattle.pls_fronts.specs.LetterFront.{letters_ahead};

/// All small letters at the front of a text, and what follows them.
pub fn letters_front(text: &[u8]) -> (&[u8], &[u8])
    ensures letters { result.0.now ≡ take (letters_ahead text.now) text.now }
    ensures rest { result.1.now ≡ drop (letters_ahead text.now) text.now }
{
    text.split_at(letters_ahead(text))
}

// Counts small letters only.
fn letters_ahead(text: &[u8]) -> usize
    ensures { result ≡ letters_ahead text.now }
{
    let mut count = 0;
    for character in text {
        if !character.is_ascii_lowercase() {
            return count;
        }
        count += 1;
    }
    count
}
