//! Expressions over the names of schemes.

use pls_names::SchemeName;

/// An expression of schemes, and inside of `Map` of properties.
#[derive(Drop)]
pub enum ExpressionTree {
    /// The scheme of a name, or its property.
    Of(SchemeName),
    /// `diameter:K`: any two nodes are the ends of a walk of at most so many edges.
    Diameter(u32),
    /// `bridgeless`: for each edge the other edges join all nodes.
    Bridgeless,
    /// The universal scheme of a property.
    Map(Box<ExpressionTree>),
    /// Both of two.
    And(Box<ExpressionTree>, Box<ExpressionTree>),
    /// At least one of two.
    Or(Box<ExpressionTree>, Box<ExpressionTree>),
}

/// An expression of properties: one that stands inside of `Map`.
pub type AnyProperty = ExpressionTree;
