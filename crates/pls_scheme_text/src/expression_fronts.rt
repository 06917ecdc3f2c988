//! Expressions at the front of a text: how many names they have, and what they are.

ghost use Rattle.std.specs.Prelude.{◌≡◌, IfOk, option_map};
ghost use Rattle.pls_fronts.specs.Front.{found_front};
ghost use Rattle.pls_expressions.specs.Held.{expression_of};
ghost use Rattle.pls_scheme_text.specs.inner.Fronts.{count_front, expression_front, expression_of_two, found_tree};

use crate::fronts::{Join, join_front, leaf_front, map_front};
use pls_expressions::ExpressionTree;
use pls_fronts::after;
use pls_streams::NoMemory;
use std::alloc::Global;

// Counts the names, up to 255, of an expression of at most `below` levels, without memory.
pub(crate) fn names_front(text: &[u8], inside: bool, below: u8) -> Option<(u8, &[u8])>
    ensures { option_map found_front result
        ≡ option_map count_front (expression_front inside below text.now) }
{
    if let Some((_, rest)) = leaf_front(text, inside) {
        return Some((1, rest));
    }
    if below == 0 {
        return None;
    }
    if let Some((_, rest)) = join_front(text) {
        let (first, rest) = names_front(rest, inside, below - 1)?;
        let rest = after(rest, b",")?;
        let (second, rest) = names_front(rest, inside, below - 1)?;
        let rest = after(rest, b")")?;
        return Some((first.saturating_add(second), rest));
    }
    let rest = map_front(text, inside)?;
    let (names, rest) = names_front(rest, true, below - 1)?;
    let rest = after(rest, b")")?;
    Some((names, rest))
}

// An expression of at most `below` levels; `inside` says it stands in `map`.
pub(crate) fn tree_front(
    alloc: Global,
    text: &[u8],
    inside: bool,
    below: u8,
) -> Result<Option<(ExpressionTree, &[u8])>, NoMemory>
    ensures { IfOk result (λ found. option_map found_tree found
        ≡ expression_front inside below text.now) }
{
    if let Some(found) = leaf_front(text, inside) {
        return Ok(Some(found));
    }
    if below == 0 {
        return Ok(None);
    }
    if let Some((join, rest)) = join_front(text) {
        let Some((first, rest)) = tree_front(alloc, rest, inside, below - 1)? else {
            return Ok(None);
        };
        let Some(rest) = after(rest, b",") else {
            return Ok(None);
        };
        let Some((second, rest)) = tree_front(alloc, rest, inside, below - 1)? else {
            return Ok(None);
        };
        let Some(rest) = after(rest, b")") else {
            return Ok(None);
        };
        return Ok(Some((join_trees(alloc, join, first, second)?, rest)));
    }
    let Some(rest) = map_front(text, inside) else {
        return Ok(None);
    };
    let Some((property, rest)) = tree_front(alloc, rest, true, below - 1)? else {
        return Ok(None);
    };
    let Some(rest) = after(rest, b")") else {
        return Ok(None);
    };
    Ok(Some((ExpressionTree::Map(Box::new(alloc, property)?), rest)))
}

fn join_trees(
    alloc: Global,
    join: Join,
    first: ExpressionTree,
    second: ExpressionTree,
) -> Result<ExpressionTree, NoMemory>
    ensures { IfOk result (λ tree. expression_of tree
        ≡ expression_of_two join (expression_of first) (expression_of second)) }
{
    let first = Box::new(alloc, first)?;
    let second = Box::new(alloc, second)?;
    Ok(match join {
        Join::Both => ExpressionTree::And(first, second),
        Join::Either => ExpressionTree::Or(first, second),
    })
}
