//! Whether an expression makes sense: how deep its quantifiers nest, and which fields it names.

ghost use Rattle.std.specs.Prelude.{◌≡◌, ◌&&◌, min};
ghost use Rattle.pls_rules.specs.Formula.{formula_nesting, term_nesting};
ghost use Rattle.pls_rules.specs.HeldTrees.{formula_of, term_of};
ghost use Rattle.pls_rule_text.specs.inner.Places.{is_placed, is_term_placed};

use pls_rules::{BoolExpr, NumExpr};

// The depth of nested quantifiers, counted up to 255.
#[cycle(nesting)]
pub(crate) fn nesting_of(formula: &BoolExpr) -> u8
    ensures { result ≡ min (formula_nesting (formula_of formula.now)) 255 }
{
    match formula {
        BoolExpr::Eq(first, second) => term_nesting(first).max(term_nesting(second)),
        BoolExpr::Lt(first, second) => term_nesting(first).max(term_nesting(second)),
        BoolExpr::Le(first, second) => term_nesting(first).max(term_nesting(second)),
        BoolExpr::Same(first, second) => nesting_of(first).max(nesting_of(second)),
        BoolExpr::Both(first, second) => nesting_of(first).max(nesting_of(second)),
        BoolExpr::Either(first, second) => nesting_of(first).max(nesting_of(second)),
        BoolExpr::Not(inner) => nesting_of(inner),
        BoolExpr::All(inner) => nesting_of(inner).saturating_add(1),
        BoolExpr::Any(inner) => nesting_of(inner).saturating_add(1),
    }
}

#[cycle(nesting)]
fn term_nesting(term: &NumExpr) -> u8
    ensures { result ≡ min (term_nesting (term_of term.now)) 255 }
{
    match term {
        NumExpr::Add(first, second) => term_nesting(first).max(term_nesting(second)),
        NumExpr::Sum(first, second) => {
            nesting_of(first)
                .max(term_nesting(second))
                .saturating_add(1)
        }
        _ => 0,
    }
}

// Whether each field is below `count`, and neighbours stand only in a quantifier or where `inside`
// is set.
#[cycle(placed)]
pub(crate) fn is_placed(formula: &BoolExpr, count: u8, inside: bool) -> bool
    ensures { result ≡ is_placed count inside (formula_of formula.now) }
{
    match formula {
        BoolExpr::Eq(first, second) => are_placed(first, second, count, inside),
        BoolExpr::Lt(first, second) => are_placed(first, second, count, inside),
        BoolExpr::Le(first, second) => are_placed(first, second, count, inside),
        BoolExpr::Same(first, second) => {
            is_placed(first, count, inside) && is_placed(second, count, inside)
        }
        BoolExpr::Both(first, second) => {
            is_placed(first, count, inside) && is_placed(second, count, inside)
        }
        BoolExpr::Either(first, second) => {
            is_placed(first, count, inside) && is_placed(second, count, inside)
        }
        BoolExpr::Not(inner) => is_placed(inner, count, inside),
        BoolExpr::All(inner) => is_placed(inner, count, true),
        BoolExpr::Any(inner) => is_placed(inner, count, true),
    }
}

#[cycle(placed)]
fn are_placed(first: &NumExpr, second: &NumExpr, count: u8, inside: bool) -> bool
    ensures { result ≡ (is_term_placed count inside (term_of first.now)
        && is_term_placed count inside (term_of second.now)) }
{
    is_term_placed(first, count, inside) && is_term_placed(second, count, inside)
}

#[cycle(placed)]
fn is_term_placed(term: &NumExpr, count: u8, inside: bool) -> bool
    ensures { result ≡ is_term_placed count inside (term_of term.now) }
{
    match term {
        NumExpr::My(field) | NumExpr::Up(field) => *field < count,
        NumExpr::Nb(field) => inside && *field < count,
        NumExpr::NbWeight | NumExpr::NbUp => inside,
        NumExpr::Add(first, second) => are_placed(first, second, count, inside),
        NumExpr::Sum(first, second) => {
            is_placed(first, count, true) && is_term_placed(second, count, true)
        }
        _ => true,
    }
}
