//! Lines of a word and a state, or of a word and three numbers.

ghost use Rattle.std.specs.Prelude.{◌≡◌, ◌≢◌, ℕ, ◌≤◌, ◌^◌, List, [], ◌∷◌, ◌++◌, IfNone, IfSome, decimal};
ghost use Rattle.pls_configuration.specs.declared.row.State.{State};
ghost use Rattle.pls_lines.specs.Text.{line_of};
ghost use Rattle.pls_netfile.specs.NetworkLine.{FitsNode};
ghost use Rattle.pls_netfile.specs.NetworkText.{state_words};
ghost use Rattle.pls_edits.specs.EditsText.{FitThree};

use pls_configuration::State;
use pls_lines::{after_word, number_before, u32_before};
use pls_netfile::read_state;

// Reads the line `word`, identity, state; `None` where `text` does not start with one.
pub(crate) fn state_after<'a>(text: &'a [u8], word: &[u8]) -> Option<(u32, State, &'a [u8])>
    ensures fits { IfSome result (λ read. FitsNode read.0 read.1) }
    ensures stands { IfSome result (λ read.
        text.now ≡ line_of (word.now ∷ state_words read.0 read.1) ++ 10 ∷ read.2.now) }
    ensures none { IfNone result ((id : ℕ) (state : State) (rest : List ℕ) → FitsNode id state
        → text.now ≢ line_of (word.now ∷ state_words id state) ++ 10 ∷ rest) }
{
    let words = after_word(text, word)?;
    let (id, state, rest) = read_state(words)?;
    Some((id, state, rest))
}

// Reads a line of `word` and three numbers, the last of them at most `most`.
pub(crate) fn three_numbers<'a>(
    text: &'a [u8],
    word: &[u8],
    most: u64,
) -> Option<(u32, u32, u64, &'a [u8])>
    requires few { most ≤ 2 ^ 63 }
    ensures stands { IfSome result (λ read. text.now
        ≡ line_of (word.now ∷ decimal read.0 ∷ decimal read.1 ∷ decimal read.2 ∷ [])
        ++ 10 ∷ read.3.now) }
    ensures within { IfSome result (λ read. FitThree read.0 read.1 read.2 most) }
    ensures none { IfNone result ((a b c : ℕ) (rest : List ℕ) → FitThree a b c most
        → text.now ≢ line_of (word.now ∷ decimal a ∷ decimal b ∷ decimal c ∷ []) ++ 10 ∷ rest) }
{
    let words = after_word(text, word)?;
    let (first, words) = u32_before(words, b' ')?;
    let (second, last) = u32_before(words, b' ')?;
    let (third, rest) = number_before(last, b'\n', most)?;
    Some((first, second, third, rest))
}
