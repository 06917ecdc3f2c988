//! The tests of marks and numbers, and those that try all lists, pass exactly where the properties
//! hold.

ghost use Rattle.std.specs.Prelude.{◌↔◌, IsTrue};
ghost use Rattle.pls_facts.specs.Leader.{HasOneLeader};
ghost use Rattle.pls_facts.specs.NodeCount.{AreCounted};
ghost use Rattle.pls_facts.specs.Bipartite.{IsBipartite};
ghost use Rattle.pls_facts.specs.Cycle.{IsAcyclic};
ghost use Rattle.pls_facts.specs.MinimumSpanningTree.{IsMinimumSpanningTree};
ghost use Rattle.pls_truth_values.specs.MarkTests.{count_test, leader_test};
ghost use Rattle.pls_truth_values.specs.SearchTests.{acyclic_test, bipartite_test, mst_test};

use pls_facts::is_valid;
use pls_graph::Network;

/// The test of leaders passes exactly where one node is marked as a leader.
pub fn leader_is_tested(net: &Network)
    ensures { IsTrue (leader_test net.now) ↔ HasOneLeader net.now }
{}

/// The test of numbers passes exactly where each node has the number of nodes.
pub fn count_is_tested(net: &Network)
    ensures { IsTrue (count_test net.now) ↔ AreCounted net.now }
{}

/// The test of colourings passes exactly where the nodes can be given two colours.
pub fn bipartite_is_tested(net: &Network)
    ensures { IsTrue (bipartite_test net.now) ↔ IsBipartite net.now }
{
    is_valid(net);
}

/// The test of cycles passes exactly where there is none.
pub fn acyclic_is_tested(net: &Network)
    ensures { IsTrue (acyclic_test net.now) ↔ IsAcyclic net.now }
{
    is_valid(net);
}

/// The test of spanning trees of least weight passes exactly where the pointers make one.
pub fn mst_is_tested(net: &Network)
    ensures { IsTrue (mst_test net.now) ↔ IsMinimumSpanningTree net.now }
{
    is_valid(net);
}
