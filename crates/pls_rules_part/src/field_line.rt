//! The line of a field.

ghost use Rattle.std.specs.Prelude.{◌≡◌, ◌≢◌, ◌↔◌, ◌&&◌, ℕ, nat_le, nat_lt, List, [], ◌∷◌, ◌++◌, length, IfNone, IfSome, IsTrue, codes};
ghost use Rattle.std.specs.List.{list_all};
ghost use Rattle.pls_numbers.specs.declared.kind.FieldKind.{FieldKind};
ghost use Rattle.pls_lines.specs.Text.{line_of};
ghost use Rattle.pls_fronts.specs.LetterFront.{is_letter};
ghost use Rattle.pls_rule_text.specs.FormulaText.{IsFieldName};
ghost use Rattle.pls_rules_part.specs.RulesText.{kind_word};

use crate::word_before::word_before;
use pls_lines::{after_line, after_word, is_same};
use pls_rules::{FieldKind, MAX_LETTERS};

/// The name and the kind of a line `field NAME KIND` at the front of a text, and what follows its
/// line feed; `None` where no such line stands there.
pub(crate) fn field_words(text: &[u8]) -> Option<(&[u8], FieldKind, &[u8])>
    ensures name { IfSome result (λ read. IsFieldName read.0.now) }
    ensures stands { IfSome result (λ read. text.now
        ≡ line_of (codes "field" ∷ read.0.now ∷ kind_word read.1 ∷ []) ++ 10 ∷ read.2.now) }
    ensures none { IfNone result ((name : List ℕ) (kind : FieldKind) (rest : List ℕ)
        → IsFieldName name
        → text.now ≢ line_of (codes "field" ∷ name ∷ kind_word kind ∷ []) ++ 10 ∷ rest) }
{
    let words = after_word(text, b"field")?;
    let (name, last) = word_before(words, b' ')?;
    if !is_field_name(name) {
        return None;
    }
    let (kind, rest) = kind_front(last)?;
    Some((name, kind, rest))
}

// The kind that ends a line, and the text behind the line feed.
fn kind_front(text: &[u8]) -> Option<(FieldKind, &[u8])>
    ensures stands { IfSome result (λ read. text.now ≡ kind_word read.0 ++ 10 ∷ read.1.now) }
    ensures none { IfNone result ((kind : FieldKind) (rest : List ℕ)
        → text.now ≢ kind_word kind ++ 10 ∷ rest) }
{
    if let Some(rest) = after_line(text, b"num") {
        return Some((FieldKind::Num, rest));
    }
    let rest = after_line(text, b"bit")?;
    Some((FieldKind::Bit, rest))
}

// Excludes `weight` and `up`, the words for ports.
fn is_field_name(word: &[u8]) -> bool
    ensures { IsTrue result ↔ IsFieldName word.now }
{
    if is_same(word, b"weight") {
        return false;
    }
    if is_same(word, b"up") {
        return false;
    }
    is_name(word)
}

// Whether a word is letters only, and of a permitted length.
fn is_name(word: &[u8]) -> bool
    ensures { result ≡ (nat_lt 0 (length word.now)
        && (nat_le (length word.now) 16 && list_all is_letter word.now)) }
{
    word.len() > 0 && word.len() <= MAX_LETTERS && are_letters(word)
}

// Small letters only.
fn are_letters(word: &[u8]) -> bool
    ensures { result ≡ list_all is_letter word.now }
{
    word.iter().all(|letter| letter.is_ascii_lowercase())
}
