//! An expression as a property with a test.

use crate::deciding::decide_tree;
use crate::expression_tree::ExpressionTree;
use pls_graph::Network;
use pls_scheme::Property;
use pls_streams::NoMemory;
use pls_universal::PropertyTest;
use std::alloc::Global;

/// An expression that is lent, as a property.
#[derive(Drop)]
pub struct LentProperty<'a> {
    /// The expression.
    pub tree: &'a ExpressionTree,
}

impl<'a> Property for LentProperty<'a> {
    ghost use Rattle.pls_expressions.specs.Held.{expression_of};
    ghost use Rattle.pls_expressions.specs.Expression.{HasProperty};

    ghost holds = { λ property rows. HasProperty (expression_of property.tree.now) rows };

    fn decide(&self, alloc: Global, net: &Network) -> Result<bool, NoMemory> {
        decide_tree(alloc, self.tree, net)
    }
}

impl<'a> PropertyTest for LentProperty<'a> {
    ghost use Rattle.pls_expressions.specs.Held.{expression_of};
    ghost use Rattle.pls_expressions.specs.Expression.{test_of};
    ghost use Rattle.pls_expressions.specs.laws.TestLaws.{test_tells};

    ghost test = { λ property rows. test_of (expression_of property.tree.now) rows };

    ghost test_law = { λ property. test_tells (expression_of property.tree.now) };
}
