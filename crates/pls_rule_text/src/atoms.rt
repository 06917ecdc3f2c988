//! Terms without parts at the front of a text. No call takes memory.

ghost use Rattle.std.specs.Prelude.{◌≡◌, ◌≤◌, length, option_map};
ghost use Rattle.pls_fronts.specs.Front.{followed};
ghost use Rattle.pls_rules.specs.HeldTrees.{term_of};
ghost use Rattle.pls_rule_text.specs.FieldNames.{names_of};
ghost use Rattle.pls_rule_text.specs.RuleText.{place_of_name, term_with};
ghost use Rattle.pls_rule_text.specs.inner.Atoms.{above_named, atom_front, beside_named, name_front, named_atom};
ghost use Rattle.pls_rule_text.specs.inner.Held.{found_term, placed_term};

use pls_bits::MAX_CODED;
use pls_fronts::{after, letters_front, number_front};
use pls_rules::{Field, MAX_LETTERS, NumExpr};

// A term without subterms at the front of a text, and the rest.
#[tactic(auto, unfolding(crate::specs::inner::Atoms::atom_front))]
pub(crate) fn atom_front<'a>(fields: &[Field], text: &'a [u8]) -> Option<(NumExpr, &'a [u8])>
    requires few { length fields.now ≤ 8 }
    ensures { option_map found_term result
        ≡ option_map (placed_term (names_of fields.now)) (atom_front text.now) }
{
    if let Some((number, rest)) = number_front(text, MAX_CODED) {
        return Some((NumExpr::Number(number), rest));
    }
    if let Some(rest) = after(text, b"id") {
        Some((NumExpr::Id, rest))
    } else if let Some(rest) = after(text, b"mark") {
        Some((NumExpr::Mark, rest))
    } else if let Some(rest) = after(text, b"num") {
        Some((NumExpr::Num, rest))
    } else if let Some(rest) = after(text, b"degree") {
        Some((NumExpr::Degree, rest))
    } else if let Some(rest) = after(text, b"pointed") {
        Some((NumExpr::Pointed, rest))
    } else {
        named_atom(fields, text)
    }
}

// A term `my.`, `up.` or `nb.` with its name, and the rest.
fn named_atom<'a>(fields: &[Field], text: &'a [u8]) -> Option<(NumExpr, &'a [u8])>
    requires few { length fields.now ≤ 8 }
    ensures { option_map found_term result
        ≡ option_map (placed_term (names_of fields.now)) (named_atom text.now) }
{
    if let Some(rest) = after(text, b"my.") {
        let (name, rest) = name_front(rest)?;
        return Some((NumExpr::My(place_of(fields, name)), rest));
    }
    if let Some(rest) = after(text, b"up.") {
        let (name, rest) = name_front(rest)?;
        return Some((above_named(fields, name), rest));
    }
    let (name, rest) = name_front(after(text, b"nb.")?)?;
    Some((beside_named(fields, name), rest))
}

// The term of a name behind `up.`.
fn above_named(fields: &[Field], name: &[u8]) -> NumExpr
    requires few { length fields.now ≤ 8 }
    ensures { term_of result
        ≡ term_with (place_of_name (names_of fields.now)) (above_named name.now) }
{
    if name == b"weight".as_slice() {
        NumExpr::UpWeight
    } else {
        NumExpr::Up(place_of(fields, name))
    }
}

// The term of a name behind `nb.`.
fn beside_named(fields: &[Field], name: &[u8]) -> NumExpr
    requires few { length fields.now ≤ 8 }
    ensures { term_of result
        ≡ term_with (place_of_name (names_of fields.now)) (beside_named name.now) }
{
    if name == b"weight".as_slice() {
        NumExpr::NbWeight
    } else if name == b"up".as_slice() {
        NumExpr::NbUp
    } else {
        NumExpr::Nb(place_of(fields, name))
    }
}

// All letters at the front of a text, and the rest.
fn name_front(text: &[u8]) -> Option<(&[u8], &[u8])>
    ensures { option_map (λ found. followed found.0.now found.1.now) result ≡ name_front text.now }
{
    let (name, rest) = letters_front(text);
    if 1 <= name.len() && name.len() <= MAX_LETTERS {
        Some((name, rest))
    } else {
        None
    }
}

// The first field with this name, or the number of fields if there is none.
fn place_of(fields: &[Field], name: &[u8]) -> u8
    requires few { length fields.now ≤ 8 }
    ensures place { result ≡ place_of_name (names_of fields.now) name.now }
    ensures within { result ≤ length fields.now }
{
    match fields.split_first() {
        None => 0,
        Some((field, others)) => {
            if field.name.as_str().as_bytes() == name {
                0
            } else {
                1 + place_of(others, name)
            }
        }
    }
}
