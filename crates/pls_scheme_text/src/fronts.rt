//! What stands at the front of a text: what opens an expression of others, and a leaf. No call
//! takes memory.

ghost use Rattle.std.specs.Prelude.{◌≡◌, IfSome, option_map};
ghost use Rattle.pls_fronts.specs.Front.{found_front};
ghost use Rattle.pls_expressions.specs.Expression.{count_of_names};
ghost use Rattle.pls_expressions.specs.Held.{expression_of};
ghost use Rattle.pls_scheme_text.specs.inner.Fronts.{edges_front, join_front, leaf_front, map_front, property_front, found_tree};

use pls_configuration::MAX_NODES;
use pls_expressions::ExpressionTree;
use pls_fronts::{after, number_front};
use pls_names::name_front;

// How two expressions are joined.
#[derive(Clone, Copy, Debug, PartialEq, Eq)]
pub(crate) enum Join {
    // By `and`.
    Both,
    // By `or`.
    Either,
}

// The opening of an expression of two, and the rest.
pub(crate) fn join_front(text: &[u8]) -> Option<(Join, &[u8])>
    ensures { option_map found_front result ≡ join_front text.now }
{
    if let Some(rest) = after(text, b"and(") {
        Some((Join::Both, rest))
    } else if let Some(rest) = after(text, b"or(") {
        Some((Join::Either, rest))
    } else {
        None
    }
}

// The text behind `map(`, which may not stand inside another `map`.
pub(crate) fn map_front(text: &[u8], inside: bool) -> Option<&[u8]>
    ensures { option_map (λ rest. rest.now) result ≡ map_front inside text.now }
{
    if inside { None } else { after(text, b"map(") }
}

// A name, or inside of `map` also a property without a scheme, and the rest.
#[tactic(auto, unfolding(crate::specs::inner::Fronts::leaf_front))]
pub(crate) fn leaf_front(text: &[u8], inside: bool) -> Option<(ExpressionTree, &[u8])>
    ensures value { option_map found_tree result ≡ leaf_front inside text.now }
    ensures one { IfSome result (λ found. count_of_names (expression_of found.0) ≡ 1) }
{
    if let Some((name, rest)) = name_front(text) {
        Some((ExpressionTree::Of(name), rest))
    } else if inside {
        property_front(text)
    } else {
        None
    }
}

// A property that has no scheme, and the rest.
fn property_front(text: &[u8]) -> Option<(ExpressionTree, &[u8])>
    ensures value { option_map found_tree result ≡ property_front text.now }
    ensures one { IfSome result (λ found. count_of_names (expression_of found.0) ≡ 1) }
{
    if let Some(rest) = after(text, b"bridgeless") {
        return Some((ExpressionTree::Bridgeless, rest));
    }
    let (most, rest) = edges_front(text)?;
    Some((ExpressionTree::Diameter(most), rest))
}

// The number behind `diameter:`, and the rest.
fn edges_front(text: &[u8]) -> Option<(u32, &[u8])>
    ensures { option_map found_front result ≡ edges_front text.now }
{
    let (most, rest) = number_front(after(text, b"diameter:")?, MAX_NODES as u64 - 1)?;
    Some((most as u32, rest))
}
