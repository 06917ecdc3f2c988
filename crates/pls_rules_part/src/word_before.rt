//! Words up to a byte.

ghost use Rattle.std.specs.Prelude.{◌≡◌, ◌==◌, ℕ, List, ◌∷◌, ◌++◌, IfNone, IfSome};
ghost use Rattle.std.specs.List.{position};
ghost use Rattle.pls_lines.specs.Plain.{LacksItem};

use pls_lines::bytes_before;

/// What stands before the first byte `end` of a text, and what follows that byte; `None` where the
/// text has no such byte.
pub(crate) fn word_before(text: &[u8], end: u8) -> Option<(&[u8], &[u8])>
    ensures stands { IfSome result (λ parts. text.now ≡ parts.0.now ++ end ∷ parts.1.now) }
    ensures first { IfSome result (λ parts. (word rest : List ℕ) → LacksItem end word
        → text.now ≡ word ++ end ∷ rest → (parts.0.now ≡ word) × (parts.1.now ≡ rest)) }
    ensures none { IfNone result ((word rest : List ℕ) → LacksItem end word
        → text.now ≡ word ++ end ∷ rest → ⊥) }
{
    let place = place_of(text, end)?;
    bytes_before(text, place, end)
}

// The place of the first byte `end`.
fn place_of(text: &[u8], end: u8) -> Option<usize>
    ensures { result ≡ position (λ byte. byte == end) text.now }
{
    text.iter().position(|byte| *byte == end)
}
