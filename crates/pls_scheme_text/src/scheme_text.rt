//! Expressions of schemes as texts.

ghost use Rattle.std.specs.Prelude.{◌≡◌, ◌↔◌, ◌⊎◌, ◌++◌, true, IfOk, IfErr, OnOk, Some};
ghost use Rattle.std.specs.Option.{is_some};
ghost use Rattle.std.specs.Result.{IsErrOf};
ghost use Rattle.std.specs.String.{string_bytes};
ghost use Rattle.pls_expressions.specs.Expression.{IsSmall};
ghost use Rattle.pls_expressions.specs.Held.{expression_of};
ghost use Rattle.pls_scheme_text.specs.ExpressionText.{HasTooManyNames, IsNoExpression, IsNoScheme, IsTooDeep, expression_text};
ghost use Rattle.pls_scheme_text.specs.inner.Fronts.{expression_in, names_in, scheme_refusal_of};

use crate::expression_fronts::{names_front, tree_front};
use crate::scheme_error::SchemeError;
use pls_expressions::ExpressionTree;
use pls_fronts::is_deeper;
use pls_names::name_of;
use pls_streams::NoMemory;
use std::alloc::Global;
use std::fmt::Write;

// The greatest number of names in an expression.
const MOST_NAMES: u8 = 8;

// How deep parentheses may stand.
const MOST_DEPTH: u8 = 7;

/// The expression of a text: the name of a scheme, `map(P)`, `and(A,B)` or `or(A,B)`, where P is a
/// name, `diameter:K` with K from 0 to 32767, `bridgeless`, `and(P,Q)` or `or(P,Q)`; of at most 8
/// names. The error is the first of `TooDeep`, `NotAScheme` and `TooMany` that is the case, or
/// `NoMemory`. It goes over the text three times.
pub fn read_expression(alloc: Global, text: &str) -> Result<ExpressionTree, SchemeError>
    ensures written { IfOk result (λ tree. text.now ≡ expression_text (expression_of tree)) }
    ensures small { IfOk result (λ tree. IsSmall (expression_of tree)) }
    ensures too_deep { IsErrOf result SchemeError.TooDeep ↔ IsTooDeep text.now }
    ensures not_a_scheme { IsErrOf result SchemeError.NotAScheme ↔ IsNoExpression text.now }
    ensures too_many { IsErrOf result SchemeError.TooMany ↔ HasTooManyNames text.now }
    ensures refused { IfErr result (λ error.
        (error ≡ SchemeError.NoMemory) ⊎ IsNoScheme text.now) }
{
    let bytes = text.as_bytes();
    match refusal_of(bytes) {
        Some(error) => Err(error),
        None => Ok(tree_in(alloc, bytes)?),
    }
}

// `None` where the text is accepted; takes no memory.
fn refusal_of(text: &[u8]) -> Option<SchemeError>
    ensures { result ≡ scheme_refusal_of text.now }
{
    if is_deeper(text, MOST_DEPTH) {
        return Some(SchemeError::TooDeep);
    }
    match names_in(text) {
        None => Some(SchemeError::NotAScheme),
        Some(names) if names > MOST_NAMES => Some(SchemeError::TooMany),
        Some(_) => None,
    }
}

// The number of names, up to 255, `None` where the text is no expression; takes no memory.
fn names_in(text: &[u8]) -> Option<u8>
    ensures { result ≡ names_in text.now }
{
    let (names, rest) = names_front(text, false, MOST_DEPTH)?;
    if rest.is_empty() { Some(names) } else { None }
}

fn tree_in(alloc: Global, text: &[u8]) -> Result<ExpressionTree, NoMemory>
    requires { is_some (expression_in text.now) ≡ true }
    ensures { IfOk result (λ tree. expression_in text.now ≡ Some (expression_of tree)) }
{
    match tree_front(alloc, text, false, MOST_DEPTH)? {
        Some((tree, _)) => Ok(tree),
        None => unreachable!(),
    }
}

/// The text of an expression, which [`read_expression`] reads back where the expression is small.
/// The one error is want of memory.
pub fn print_expression(alloc: Global, tree: &ExpressionTree) -> Result<String, NoMemory>
    ensures { IfOk result (λ text. string_bytes text ≡ expression_text (expression_of tree.now)) }
{
    let mut text = String::new(alloc);
    print_tree(&mut text, tree)?;
    Ok(text)
}

fn print_tree(text: &mut String, tree: &ExpressionTree) -> Result<(), NoMemory>
    ensures { OnOk result (string_bytes text.new
        ≡ string_bytes text.old ++ expression_text (expression_of tree.now)) }
{
    match tree {
        ExpressionTree::Of(name) => text.push_str(name_of(*name))?,
        ExpressionTree::Diameter(most) => write!(text, "diameter:{most}")?,
        ExpressionTree::Bridgeless => text.push_str("bridgeless")?,
        ExpressionTree::Map(property) => {
            text.push_str("map(")?;
            print_tree(text, property)?;
            text.push_str(")")?;
        }
        ExpressionTree::And(first, second) => {
            text.push_str("and(")?;
            print_tree(text, first)?;
            text.push_str(",")?;
            print_tree(text, second)?;
            text.push_str(")")?;
        }
        ExpressionTree::Or(first, second) => {
            text.push_str("or(")?;
            print_tree(text, first)?;
            text.push_str(",")?;
            print_tree(text, second)?;
            text.push_str(")")?;
        }
    }
    Ok(())
}
