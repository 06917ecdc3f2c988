//! The schemes, in the gamma code where no other is named: `<Tree>::new()` is `tree` in it, and
//! `Tree::<Delta>::new()` in the delta code.

use pls_bits::Gamma;

/// The scheme `tree`: the pointers of all nodes but one are a spanning tree.
pub type Tree<C = Gamma> = pls_pointer::Tree<C>;

/// The scheme `forest`: following pointers never leads back.
pub type Forest<C = Gamma> = pls_pointer::Forest<C>;

/// The scheme `bipartite`: there is a two-colouring.
pub type Bipartite<C = Gamma> = pls_colour::Bipartite<C>;

/// The scheme `acyclic`: there is no cycle.
pub type Acyclic<C = Gamma> = pls_colour::Acyclic<C>;

/// The scheme `leader`: exactly one node has mark 1.
pub type Leader<C = Gamma> = pls_leader::Leader<C>;

/// The scheme `count`: each node's number is how many nodes there are.
pub type Count<C = Gamma> = pls_leader::Count<C>;

/// The scheme `spt`: the pointers are a tree of lightest walks from its root.
pub type Spt<C = Gamma> = pls_distance::Spt<C>;

/// The scheme `mst`: the pointers are a spanning tree, and none is lighter.
pub type Mst<C = Gamma> = pls_mst::Mst<C>;

/// The scheme `pathmax`: the property of `mst`, by the greatest weights on paths.
pub type PathMax<C = Gamma> = pls_pathmax::PathMax<C>;

/// The universal scheme of the property `P`: each label holds a map of the network.
pub type MapOf<P, C = Gamma> = pls_universal::MapOf<P, C>;
