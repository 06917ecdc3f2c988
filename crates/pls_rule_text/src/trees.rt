//! The expression at the front of a text.

ghost use Rattle.std.specs.Prelude.{◌≡◌, ◌≤◌, length, IfOk, option_map};
ghost use Rattle.pls_rules.specs.Formula.{Add, Sum};
ghost use Rattle.pls_rules.specs.HeldTrees.{formula_of, term_of};
ghost use Rattle.pls_rule_text.specs.FieldNames.{names_of};
ghost use Rattle.pls_rule_text.specs.inner.Fronts.{formula_front, term_front};
ghost use Rattle.pls_rule_text.specs.inner.Held.{found_formula, found_term, placed_formula, placed_term};
ghost use Rattle.pls_rule_text.specs.inner.Openings.{comparison_of, junction_of, modifier_of};
ghost use Rattle.pls_rule_text.specs.inner.Parts.{one_front, two_front};

use crate::atoms::atom_front;
use crate::openings::{
    Comparison, Junction, Modifier, comparison_front, junction_front, modifier_front,
};
use pls_fronts::after;
use pls_rules::{BoolExpr, Field, NumExpr};
use pls_streams::NoMemory;
use std::alloc::Global;

// A formula of at most `below` levels at the front, and the rest; `None` where there is none.
#[cycle(trees)]
#[tactic(auto, unfolding(crate::specs::inner::Fronts::formula_front))]
pub(crate) fn formula_front<'a>(
    alloc: Global,
    fields: &[Field],
    text: &'a [u8],
    below: u8,
) -> Result<Option<(BoolExpr, &'a [u8])>, NoMemory>
    requires few { length fields.now ≤ 8 }
    ensures { IfOk result (λ found. option_map found_formula found
        ≡ option_map (placed_formula (names_of fields.now)) (formula_front below text.now)) }
{
    if below == 0 {
        return Ok(None);
    }
    if let Some((comparison, rest)) = comparison_front(text) {
        return behind_comparison(alloc, fields, comparison, rest, below - 1);
    }
    if let Some((junction, rest)) = junction_front(text) {
        return behind_junction(alloc, fields, junction, rest, below - 1);
    }
    match modifier_front(text) {
        Some((modifier, rest)) => behind_modifier(alloc, fields, modifier, rest, below - 1),
        None => Ok(None),
    }
}

#[cycle(trees)]
fn behind_comparison<'a>(
    alloc: Global,
    fields: &[Field],
    comparison: Comparison,
    text: &'a [u8],
    below: u8,
) -> Result<Option<(BoolExpr, &'a [u8])>, NoMemory>
    requires few { length fields.now ≤ 8 }
    ensures { IfOk result (λ found. option_map found_formula found
        ≡ option_map (placed_formula (names_of fields.now))
        (two_front (comparison_of comparison) (term_front below) (term_front below) text.now)) }
{
    let Some((first, rest)) = term_front(alloc, fields, text, below)? else {
        return Ok(None);
    };
    let Some(rest) = after(rest, b",") else {
        return Ok(None);
    };
    let Some((second, rest)) = term_front(alloc, fields, rest, below)? else {
        return Ok(None);
    };
    match after(rest, b")") {
        Some(rest) => Ok(Some((comparison_of(alloc, comparison, first, second)?, rest))),
        None => Ok(None),
    }
}

#[cycle(trees)]
fn behind_junction<'a>(
    alloc: Global,
    fields: &[Field],
    junction: Junction,
    text: &'a [u8],
    below: u8,
) -> Result<Option<(BoolExpr, &'a [u8])>, NoMemory>
    requires few { length fields.now ≤ 8 }
    ensures { IfOk result (λ found. option_map found_formula found
        ≡ option_map (placed_formula (names_of fields.now))
        (two_front (junction_of junction) (formula_front below) (formula_front below) text.now)) }
{
    let Some((first, rest)) = formula_front(alloc, fields, text, below)? else {
        return Ok(None);
    };
    let Some(rest) = after(rest, b",") else {
        return Ok(None);
    };
    let Some((second, rest)) = formula_front(alloc, fields, rest, below)? else {
        return Ok(None);
    };
    match after(rest, b")") {
        Some(rest) => Ok(Some((junction_of(alloc, junction, first, second)?, rest))),
        None => Ok(None),
    }
}

#[cycle(trees)]
fn behind_modifier<'a>(
    alloc: Global,
    fields: &[Field],
    modifier: Modifier,
    text: &'a [u8],
    below: u8,
) -> Result<Option<(BoolExpr, &'a [u8])>, NoMemory>
    requires few { length fields.now ≤ 8 }
    ensures { IfOk result (λ found. option_map found_formula found
        ≡ option_map (placed_formula (names_of fields.now))
        (one_front (modifier_of modifier) (formula_front below) text.now)) }
{
    let Some((inner, rest)) = formula_front(alloc, fields, text, below)? else {
        return Ok(None);
    };
    match after(rest, b")") {
        Some(rest) => Ok(Some((modifier_of(alloc, modifier, inner)?, rest))),
        None => Ok(None),
    }
}

// A term of at most `below` levels at the front, and the rest; `None` where there is none.
#[cycle(trees)]
#[tactic(auto, unfolding(crate::specs::inner::Fronts::term_front))]
fn term_front<'a>(
    alloc: Global,
    fields: &[Field],
    text: &'a [u8],
    below: u8,
) -> Result<Option<(NumExpr, &'a [u8])>, NoMemory>
    requires few { length fields.now ≤ 8 }
    ensures { IfOk result (λ found. option_map found_term found
        ≡ option_map (placed_term (names_of fields.now)) (term_front below text.now)) }
{
    if let Some(found) = atom_front(fields, text) {
        return Ok(Some(found));
    }
    if below == 0 {
        return Ok(None);
    }
    if let Some(rest) = after(text, b"add(") {
        return behind_add(alloc, fields, rest, below - 1);
    }
    match after(text, b"sum(") {
        Some(rest) => behind_sum(alloc, fields, rest, below - 1),
        None => Ok(None),
    }
}

#[cycle(trees)]
fn behind_add<'a>(
    alloc: Global,
    fields: &[Field],
    text: &'a [u8],
    below: u8,
) -> Result<Option<(NumExpr, &'a [u8])>, NoMemory>
    requires few { length fields.now ≤ 8 }
    ensures { IfOk result (λ found. option_map found_term found
        ≡ option_map (placed_term (names_of fields.now))
        (two_front Add (term_front below) (term_front below) text.now)) }
{
    let Some((first, rest)) = term_front(alloc, fields, text, below)? else {
        return Ok(None);
    };
    let Some(rest) = after(rest, b",") else {
        return Ok(None);
    };
    let Some((second, rest)) = term_front(alloc, fields, rest, below)? else {
        return Ok(None);
    };
    let Some(rest) = after(rest, b")") else {
        return Ok(None);
    };
    let sum = NumExpr::Add(Box::new(alloc, first)?, Box::new(alloc, second)?);
    Ok(Some((sum, rest)))
}

#[cycle(trees)]
fn behind_sum<'a>(
    alloc: Global,
    fields: &[Field],
    text: &'a [u8],
    below: u8,
) -> Result<Option<(NumExpr, &'a [u8])>, NoMemory>
    requires few { length fields.now ≤ 8 }
    ensures { IfOk result (λ found. option_map found_term found
        ≡ option_map (placed_term (names_of fields.now))
        (two_front Sum (formula_front below) (term_front below) text.now)) }
{
    let Some((first, rest)) = formula_front(alloc, fields, text, below)? else {
        return Ok(None);
    };
    let Some(rest) = after(rest, b",") else {
        return Ok(None);
    };
    let Some((second, rest)) = term_front(alloc, fields, rest, below)? else {
        return Ok(None);
    };
    let Some(rest) = after(rest, b")") else {
        return Ok(None);
    };
    let sum = NumExpr::Sum(Box::new(alloc, first)?, Box::new(alloc, second)?);
    Ok(Some((sum, rest)))
}

fn comparison_of(
    alloc: Global,
    comparison: Comparison,
    first: NumExpr,
    second: NumExpr,
) -> Result<BoolExpr, NoMemory>
    ensures { IfOk result (λ tree. formula_of tree
        ≡ comparison_of comparison (term_of first) (term_of second)) }
{
    let first = Box::new(alloc, first)?;
    let second = Box::new(alloc, second)?;
    Ok(match comparison {
        Comparison::Equal => BoolExpr::Eq(first, second),
        Comparison::Less => BoolExpr::Lt(first, second),
        Comparison::AtMost => BoolExpr::Le(first, second),
    })
}

fn junction_of(
    alloc: Global,
    junction: Junction,
    first: BoolExpr,
    second: BoolExpr,
) -> Result<BoolExpr, NoMemory>
    ensures { IfOk result (λ tree. formula_of tree
        ≡ junction_of junction (formula_of first) (formula_of second)) }
{
    let first = Box::new(alloc, first)?;
    let second = Box::new(alloc, second)?;
    Ok(match junction {
        Junction::Same => BoolExpr::Same(first, second),
        Junction::Both => BoolExpr::Both(first, second),
        Junction::Either => BoolExpr::Either(first, second),
    })
}

fn modifier_of(alloc: Global, modifier: Modifier, inner: BoolExpr) -> Result<BoolExpr, NoMemory>
    ensures { IfOk result (λ tree. formula_of tree ≡ modifier_of modifier (formula_of inner)) }
{
    let inner = Box::new(alloc, inner)?;
    Ok(match modifier {
        Modifier::Not => BoolExpr::Not(inner),
        Modifier::All => BoolExpr::All(inner),
        Modifier::Any => BoolExpr::Any(inner),
    })
}
