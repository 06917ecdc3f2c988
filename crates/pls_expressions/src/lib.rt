//! Expressions over the names of schemes, as properties of networks: the properties of the basic
//! schemes, that any two nodes are at most so many edges apart, that no edge is a bridge, and these
//! joined by `and` and `or`.
//!
//! [`ExpressionTree`] is such an expression, of schemes and of properties alike: as a property
//! `map(P)` is P. It is seen as the expression that is held (`specs/Expression`: `HasProperty`, by
//! its cases; `specs/Held`: `expression_of`). [`LentProperty`] lends one to the universal scheme,
//! with the test by which that scheme judges maps (`test_of`). Proofs may cite
//! `specs/laws/TestLaws` (`test_tells`).
#![tactic(auto)]

mod deciding;
mod expression_tree;
mod lent_property;

pub use deciding::decide_tree;
pub use expression_tree::{AnyProperty, ExpressionTree};
pub use lent_property::LentProperty;
