//! Laws of depths that lead to a root.

ghost use Rattle.std.specs.Prelude.{ℕ};
ghost use Rattle.pls_configuration.specs.declared.row.NodeRow.{NodeRow};
ghost use Rattle.pls_configuration.specs.Walk.{IsConnected};
ghost use Rattle.pls_facts.specs.Descent.{AreRooted, IsTheRoot};

use crate::valid::is_valid;
use pls_graph::Network;

/// Where neighbours in a connected network name one root, each depth above 0 falls at some
/// neighbour, and a node at depth 0 is the root that it names, there is one such node.
pub fn one_root(net: &Network)
    requires { IsConnected net.now }
    ensures { (root depth : ℕ → ℕ) → AreRooted net.now root depth
        → (row : NodeRow) × IsTheRoot net.now root depth row }
{
    is_valid(net);
}
