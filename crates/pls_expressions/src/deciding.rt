//! What decides an expression of properties, by cases.

ghost use Rattle.std.specs.Prelude.{◌↔◌, IfOk, IsTrue};
ghost use Rattle.pls_configuration.specs.Walk.{IsConnected};
ghost use Rattle.pls_expressions.specs.Held.{expression_of};
ghost use Rattle.pls_expressions.specs.Expression.{HasProperty};

use crate::expression_tree::ExpressionTree;
use pls_bits::Gamma;
use pls_diameter_bridges::{Bridgeless, Diameter};
use pls_graph::Network;
use pls_names::SchemeByName;
use pls_scheme::Property;
use pls_streams::NoMemory;
use std::alloc::Global;

/// Whether a connected network has the property. A basic one is decided as its scheme decides it;
/// the code of numbers that its labels would have has no part in that. The one error is want of
/// memory.
pub fn decide_tree(alloc: Global, tree: &ExpressionTree, net: &Network) -> Result<bool, NoMemory>
    requires { IsConnected net.now }
    ensures { IfOk result (λ yes. IsTrue yes ↔ HasProperty (expression_of tree.now) net.now) }
{
    match tree {
        ExpressionTree::Of(name) => SchemeByName::<Gamma>::new(*name).decide(alloc, net),
        ExpressionTree::Diameter(most) => Diameter::new(*most).decide(alloc, net),
        ExpressionTree::Bridgeless => Bridgeless::new().decide(alloc, net),
        ExpressionTree::Map(property) => decide_tree(alloc, property, net),
        ExpressionTree::And(first, second) => {
            Ok(decide_tree(alloc, first, net)? && decide_tree(alloc, second, net)?)
        }
        ExpressionTree::Or(first, second) => {
            Ok(decide_tree(alloc, first, net)? || decide_tree(alloc, second, net)?)
        }
    }
}
