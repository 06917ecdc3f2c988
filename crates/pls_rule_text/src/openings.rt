//! What opens an expression of others, at the front of a text.

ghost use Rattle.std.specs.Prelude.{◌≡◌, option_map};
ghost use Rattle.pls_fronts.specs.Front.{found_front};
ghost use Rattle.pls_rule_text.specs.inner.Openings.{comparison_front, junction_front, modifier_front};

use pls_fronts::after;

// What opens a formula of two terms.
#[derive(Clone, Copy, Debug, PartialEq, Eq)]
pub(crate) enum Comparison {
    // By `eq`.
    Equal,
    // By `lt`.
    Less,
    // By `le`.
    AtMost,
}

// What opens a formula of two formulas.
#[derive(Clone, Copy, Debug, PartialEq, Eq)]
pub(crate) enum Junction {
    // By `same`.
    Same,
    // By `both`.
    Both,
    // By `either`.
    Either,
}

// What opens a formula of one.
#[derive(Clone, Copy, Debug, PartialEq, Eq)]
pub(crate) enum Modifier {
    // By `not`.
    Not,
    // By `all`.
    All,
    // By `any`.
    Any,
}

// The opening of a formula of two terms, and the rest.
pub(crate) fn comparison_front(text: &[u8]) -> Option<(Comparison, &[u8])>
    ensures { option_map found_front result ≡ comparison_front text.now }
{
    if let Some(rest) = after(text, b"eq(") {
        Some((Comparison::Equal, rest))
    } else if let Some(rest) = after(text, b"lt(") {
        Some((Comparison::Less, rest))
    } else if let Some(rest) = after(text, b"le(") {
        Some((Comparison::AtMost, rest))
    } else {
        None
    }
}

// The opening of a formula of two formulas, and the rest.
pub(crate) fn junction_front(text: &[u8]) -> Option<(Junction, &[u8])>
    ensures { option_map found_front result ≡ junction_front text.now }
{
    if let Some(rest) = after(text, b"same(") {
        Some((Junction::Same, rest))
    } else if let Some(rest) = after(text, b"both(") {
        Some((Junction::Both, rest))
    } else if let Some(rest) = after(text, b"either(") {
        Some((Junction::Either, rest))
    } else {
        None
    }
}

// The opening of a formula of one formula, and the rest.
pub(crate) fn modifier_front(text: &[u8]) -> Option<(Modifier, &[u8])>
    ensures { option_map found_front result ≡ modifier_front text.now }
{
    if let Some(rest) = after(text, b"not(") {
        Some((Modifier::Not, rest))
    } else if let Some(rest) = after(text, b"all(") {
        Some((Modifier::All, rest))
    } else if let Some(rest) = after(text, b"any(") {
        Some((Modifier::Any, rest))
    } else {
        None
    }
}
