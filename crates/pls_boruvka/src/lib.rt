//! The levels of Borůvka's method in a network whose pointers are a spanning tree.
//! [`boruvka_levels`] gives the levels of each node, or says that some spanning tree is lighter
//! than the pointed edges. [`fragments`] tells for each node where the chain ends that follows
//! joined pointers alone.
//!
//! `specs/Boruvka` says what levels are. Where they are answered, no spanning tree is lighter,
//! there are at most log2 n levels of n nodes, and no other levels are right.
#![tactic(auto)]

mod boruvka;
mod choice;
mod choosing;
mod fragment_names;
mod joining;
mod level;
mod level_laws;
mod level_list;
mod level_lists;
mod round;
mod short_level;
mod tops;

pub use boruvka::boruvka_levels;
pub use fragment_names::fragments;
pub use level::Level;
pub use level_laws::fragments_and_levels;
pub use level_list::LevelList;
pub use level_lists::LevelLists;
