//! The components of a network: the nodes that walks join to one another.
//!
//! [`components`] finds them in their order, as [`Components`], seen as the list of their places;
//! [`Components::part`] gives one by itself, as a network. The contract of a scheme stands on a
//! connected network: [`mark_parts`], [`bound_parts`] and [`room_parts`] carry it to each
//! component, and the laws [`local_parts`] and [`sound_parts`] say that a node sees the same in its
//! component as in the network, and that a component whose nodes all accept has the property.
//!
//! Proofs above may cite `proofs/Items` (what stands at some places of a list), `proofs/Part` (a
//! component by itself is a connected network), `proofs/Apart` (a network has one list of
//! components), `proofs/Local` (views and verdicts in a component), `proofs/Whole` (a connected
//! network is its one component), `proofs/Empty` (without a node there is none), `proofs/Partition`
//! (sums over components are sums over nodes) and `proofs/OneMarking` (components are marked in one
//! way).
#![tactic(auto)]

mod buckets;
mod component_list;
mod finding;
mod flood;
mod id_list;
mod laws;
mod mark_result;
mod part_bounds;
mod part_marks;
mod part_size;

pub use component_list::Components;
pub use finding::components;
pub use id_list::IdList;
pub use laws::{local_parts, sound_parts};
pub use mark_result::MarkResult;
pub use part_bounds::{bound_parts, room_parts};
pub use part_marks::mark_parts;
