//! The tests of pointers pass exactly where the properties hold.

ghost use Rattle.std.specs.Prelude.{◌↔◌, IsTrue};
ghost use Rattle.pls_facts.specs.Pointer.{NoneReturns};
ghost use Rattle.pls_facts.specs.ShortestPath.{IsShortestPathTree};
ghost use Rattle.pls_facts.specs.SpanningTree.{IsTree};
ghost use Rattle.pls_truth_values.specs.PointerTests.{forest_test, spt_test, tree_test};

use pls_facts::is_valid;
use pls_graph::Network;

/// The test of forests passes exactly where no chain of pointers returns.
pub fn forest_is_tested(net: &Network)
    ensures { IsTrue (forest_test net.now) ↔ NoneReturns net.now }
{
    is_valid(net);
}

/// The test of trees passes exactly where one node has no pointer and the edges that the others
/// point along are a spanning tree.
pub fn tree_is_tested(net: &Network)
    ensures { IsTrue (tree_test net.now) ↔ IsTree net.now }
{
    is_valid(net);
}

/// The test of shortest-path trees passes exactly where the pointers make a tree and each node's
/// chain weighs at most what any walk from the root to the node weighs.
pub fn spt_is_tested(net: &Network)
    ensures { IsTrue (spt_test net.now) ↔ IsShortestPathTree net.now }
{
    is_valid(net);
}
