//! Laws of spanning trees: their walks, the exchange of an edge, and two rules by which a spanning
//! tree is seen to be of least weight.

ghost use Rattle.std.specs.Prelude.{◌≡◌, ℕ, Bool, List, Contains, IsTrue, remove, slice_set};
ghost use Rattle.pls_configuration.specs.Configuration.{ids_of};
ghost use Rattle.pls_configuration.specs.Walk.{AreJoined, Edge, edges_of};
ghost use Rattle.pls_facts.specs.Lightest.{AreFirstLeaving, IsEdgeOrder, IsLightest, OthersAreHeavy};
ghost use Rattle.pls_facts.specs.Path.{IsAlong, IsPath};
ghost use Rattle.pls_facts.specs.SpanningTree.{IsSpanningTree};

use crate::valid::is_valid;
use pls_graph::Network;

/// In a spanning tree one walk alone leads from a node to a node and comes to no node twice.
pub fn one_walk(net: &Network)
    ensures { (tree : List Edge) → IsSpanningTree (edges_of net.now) tree (ids_of net.now)
        → (u v : ℕ) → Contains (ids_of net.now) u → Contains (ids_of net.now) v
        → (walk : List ℕ) × IsPath tree u walk v
        × ((other : List ℕ) → IsPath tree u other v → walk ≡ other) }
{
    is_valid(net);
}

/// An edge may take the place of each edge of a spanning tree on the path between its ends, and of
/// each without which the tree does not join its ends: what results is a spanning tree. An edge of
/// the tree can take only its own place in this way.
pub fn exchange(net: &Network)
    ensures on_the_path { (tree : List Edge)
        → IsSpanningTree (edges_of net.now) tree (ids_of net.now)
        → (new old : Edge) (path : List ℕ) → Contains (edges_of net.now) new
        → IsPath tree new.a path new.b → (at : Contains tree old) → IsAlong old new.a path
        → IsSpanningTree (edges_of net.now) (slice_set tree at.0 new) (ids_of net.now) }
    ensures between_the_parts { (tree : List Edge)
        → IsSpanningTree (edges_of net.now) tree (ids_of net.now)
        → (new old : Edge) → Contains (edges_of net.now) new → (at : Contains tree old)
        → ¬ AreJoined (remove tree at.0) new.a new.b
        → IsSpanningTree (edges_of net.now) (slice_set tree at.0 new) (ids_of net.now) }
{
    is_valid(net);
}

/// Where each edge outside a spanning tree is at least as heavy as every tree edge on the path
/// between its ends, no spanning tree weighs less.
pub fn cycle_rule(net: &Network)
    ensures { (tree : List Edge) → IsSpanningTree (edges_of net.now) tree (ids_of net.now)
        → OthersAreHeavy (edges_of net.now) tree
        → IsLightest (edges_of net.now) tree (ids_of net.now) }
{
    is_valid(net);
}

/// Where each edge of a spanning tree is the first that leaves some set of nodes, in one strict
/// order of the network's edges in which lighter ones come first, each edge outside is at least as
/// heavy as every tree edge on the path between its ends, and no spanning tree weighs less.
pub fn cut_rule(net: &Network)
    ensures heavy { (tree : List Edge) (before : Edge → Edge → Bool)
        → IsSpanningTree (edges_of net.now) tree (ids_of net.now)
        → IsEdgeOrder (edges_of net.now) (λ one other. IsTrue (before one other))
        → AreFirstLeaving (edges_of net.now) (λ one other. IsTrue (before one other)) tree
        → OthersAreHeavy (edges_of net.now) tree }
    ensures lightest { (tree : List Edge) (before : Edge → Edge → Bool)
        → IsSpanningTree (edges_of net.now) tree (ids_of net.now)
        → IsEdgeOrder (edges_of net.now) (λ one other. IsTrue (before one other))
        → AreFirstLeaving (edges_of net.now) (λ one other. IsTrue (before one other)) tree
        → IsLightest (edges_of net.now) tree (ids_of net.now) }
{
    is_valid(net);
}
