//! Laws of graphs that several schemes rest on: walks, chains of pointers, trees, cycles, levels,
//! two-colourings, spanning trees of least weight, and what all nodes agree on.
//!
//! The definitions stand in `specs/`: `Pointer` has chains of pointers, `SpanningTree` spanning
//! trees and the edges that pointers name, `Cycle` cycles, `Bipartite` two-colourings, `OnlyNode`
//! the one node that passes a test, `Agreement` what neighbours have in common, `Leader` one marked
//! node, `NodeCount` numbers that count the nodes, `Descent` depths that lead to a root, `Parents`
//! chains of parents, `TreeSums` sums along them, `Weight` weights of walks and distances,
//! `ShortestPath` shortest-path trees, `Path` walks that come to no node twice, `Classes` what
//! edges join, by a node that stands for all of it, `Lightest` spanning trees of least weight and
//! the two rules that show them, `MinimumSpanningTree` pointers that make one, `Precedes` and
//! `EdgeOrder` an order of edges by weight, kind and ends. Each law is a function that does nothing
//! and says what holds of the definitions; [`only_node`] finds the one node that passes a test.
//!
//! Proofs above may cite all of `proofs/`. `Lists` has what holds of lists alone, `Greatest` the
//! greatest of some numbers, `Neighbours` the nodes at the ports, `Levels` levels from any node,
//! `ChainDepths` the lengths of chains, `OnlyNode` and `Roots` the one node that passes a test,
//! `Agreed` what agrees at each port, `CycleDepths` depths where there is no cycle, `RootLevels`
//! depths that lead to a root, `Colourings` colours at ports and parities of levels, `Chains`,
//! `Pointed`, `PointedEdges`, `Bounded` and `Trees` pointers and their edges, `ParentEnds` and
//! `ParentLines` chains of parents, `Sums` and `TreeSums` sums along them, `Weights` and
//! `ShortestPaths` weights along walks and chains, `NamedPlaces` the places of identities. Of
//! spanning trees `Paths` and `OneWalk` have the paths, `Classes` what edges join, `Exchanges` one
//! edge in place of another, `CycleRule`, `Latest` and `CutRule` the two rules, `Chosen` what holds
//! of each spanning tree of least weight, `EdgeKeys` and `Dictionary` the order of edges,
//! `PortEdges` the ports of an edge, `Tops` where pointers end, `Distinct`, `Fewer` and `Decided`
//! lists of distinct items and what is decided of edges.
#![tactic(auto)]

mod agreement_laws;
mod cycle_laws;
mod descent_laws;
mod only;
mod pointer_laws;
mod spanning_laws;
mod sum_laws;
mod tree_laws;
mod valid;
mod walk_laws;

pub use agreement_laws::all_agree;
pub use cycle_laws::cycles_and_depths;
pub use descent_laws::one_root;
pub use only::{PointsAtNone, StateTest, only_node};
pub use pointer_laws::chain_ends;
pub use spanning_laws::{cut_rule, cycle_rule, exchange, one_walk};
pub use sum_laws::sums_count;
pub use tree_laws::tree_of_pointers;
pub use valid::is_valid;
pub use walk_laws::walks;
