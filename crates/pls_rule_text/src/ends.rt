//! Where the expression at the front of a text ends. No call takes memory.

ghost use Rattle.std.specs.Prelude.{◌≡◌, option_map};
ghost use Rattle.pls_rule_text.specs.inner.Fronts.{formula_front, term_front};
ghost use Rattle.pls_rule_text.specs.inner.Held.{rest_of};

use crate::atoms::atom_front;
use crate::openings::{comparison_front, junction_front, modifier_front};
use pls_fronts::after;

// The text behind a formula of at most `below` levels.
#[cycle(ends)]
#[tactic(auto, unfolding(crate::specs::inner::Fronts::formula_front))]
pub(crate) fn formula_end(text: &[u8], below: u8) -> Option<&[u8]>
    ensures { option_map (λ rest. rest.now) result
        ≡ option_map rest_of (formula_front below text.now) }
{
    if below == 0 {
        return None;
    }
    if let Some((_, rest)) = comparison_front(text) {
        let rest = term_end(rest, below - 1)?;
        let rest = term_end(after(rest, b",")?, below - 1)?;
        return after(rest, b")");
    }
    if let Some((_, rest)) = junction_front(text) {
        let rest = formula_end(rest, below - 1)?;
        let rest = formula_end(after(rest, b",")?, below - 1)?;
        return after(rest, b")");
    }
    let (_, rest) = modifier_front(text)?;
    after(formula_end(rest, below - 1)?, b")")
}

// The text behind a term of at most `below` levels.
#[cycle(ends)]
#[tactic(auto, unfolding(crate::specs::inner::Fronts::term_front))]
fn term_end(text: &[u8], below: u8) -> Option<&[u8]>
    ensures { option_map (λ rest. rest.now) result
        ≡ option_map rest_of (term_front below text.now) }
{
    if let Some((_, rest)) = atom_front(&[], text) {
        return Some(rest);
    }
    if below == 0 {
        return None;
    }
    if let Some(rest) = after(text, b"add(") {
        let rest = term_end(rest, below - 1)?;
        let rest = term_end(after(rest, b",")?, below - 1)?;
        return after(rest, b")");
    }
    let rest = formula_end(after(text, b"sum(")?, below - 1)?;
    let rest = term_end(after(rest, b",")?, below - 1)?;
    after(rest, b")")
}
