//! Laws of sums along a tree.

ghost use Rattle.std.specs.Prelude.{◌≡◌, ℕ, length, Contains};
ghost use Rattle.pls_configuration.specs.declared.row.NodeRow.{NodeRow};
ghost use Rattle.pls_facts.specs.TreeSums.{AreSummed, HaveParents};

use crate::valid::is_valid;
use pls_graph::Network;

/// Where the parent of each node but the root is one of its neighbours, and the number of each node
/// is one more than what those have together whose parent it is, the root's is the number of nodes.
pub fn sums_count(net: &Network)
    ensures { (root : NodeRow) (parent number : ℕ → ℕ) → Contains net.now root
        → HaveParents net.now root.id parent → AreSummed net.now parent number
        → number root.id ≡ length net.now }
{
    is_valid(net);
}
