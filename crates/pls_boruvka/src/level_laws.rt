//! Laws of fragments and levels.

ghost use Rattle.std.specs.Prelude.{◌≡◌, ℕ, Bool, List, get_or};
ghost use Rattle.pls_configuration.specs.Configuration.{ids_of};
ghost use Rattle.pls_graph.specs.Places.{place_in};
ghost use Rattle.pls_boruvka.specs.declared.level.Level.{Level};
ghost use Rattle.pls_boruvka.specs.Boruvka.{AreChainLengths, AreLevelLists};
ghost use Rattle.pls_boruvka.specs.Fragments.{AreFragmentNames, AreFragments, joined_edges};

use pls_facts::is_valid;
use pls_graph::Network;

/// The names of fragments are right for the edges along which nodes point whose entries are true:
/// nodes that these edges join have one name, that of their one node of least depth. And there is
/// one answer for the levels of a network.
pub fn fragments_and_levels(net: &Network)
    ensures names { (joined : List Bool) (names : List ℕ) (depth : ℕ → ℕ)
        → AreChainLengths net.now depth → AreFragmentNames net.now joined names
        → AreFragments (joined_edges net.now joined) (ids_of net.now) depth
        (λ id. get_or names (place_in net.now id) 0) }
    ensures one { (one other : List (List Level)) → AreLevelLists net.now one
        → AreLevelLists net.now other → one ≡ other }
{
    is_valid(net);
}
