//! The centroid levels of a network whose pointers make a tree. On the first level all nodes are
//! one piece; each piece has its centroid, and the parts that it falls into without it are the
//! pieces of the next level. [`centroid_levels`] gives for each node the centroid of each piece
//! that it is in, and how far away and behind how heavy an edge it stands ([`CentroidLevel`],
//! [`CentroidLists`]).
//!
//! `specs/Centroid` says what a centroid is, `specs/Levels` what levels are. All pieces of a level
//! are gone through together, in a few passes over the nodes, so that n nodes take n log n steps,
//! however deep the tree is. Proofs above may cite `proofs/`: `Few` that a node has few levels,
//! `OneList` that it has one list of them, `Mates` what the nodes of a piece have in common,
//! `Lightly` that the ends of an edge outside of a lightest tree meet lightly on some level.
#![tactic(auto)]

mod all_levels;
mod centroid_list;
mod centroid_lists;
mod level;
mod level_entry;
mod reaching;
mod rooted;
mod round;
mod splitting;

pub use all_levels::centroid_levels;
pub use centroid_list::CentroidList;
pub use centroid_lists::CentroidLists;
pub use level::CentroidLevel;
