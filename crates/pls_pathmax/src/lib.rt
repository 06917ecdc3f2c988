//! Spanning trees of least weight by centroids: the property of `mst`, with other labels. A node
//! checks how far away and behind how heavy an edge it stands from the centroid of each piece that
//! it is in, and that no edge outside of the tree is lighter than the greatest weights on the ways
//! from its two ends to one centroid.
//!
//! [`PathMax`] is the scheme, over any number code: a verifier that takes no memory, the property,
//! a marker, and a layout of labels. [`PathMaxRules`] is what it states of its own,
//! [`PathMaxLabel`] what its labels say, [`PathMaxFormat`] how they are written: they are those of
//! `pls_levels` with the levels of `pls_centroid` ([`PathMaxLevels`]). A label may have as many
//! levels as memory allows, and each of them asks for some port, so a view is judged in passes over
//! its ports (`PathMaxPass`), each for up to 64 levels. One pass is enough for marked labels. For
//! labels with more levels `verify`, which takes no memory, makes as many passes as it takes, so
//! that k levels take k / 64 of them; a round and a judge that remembers labels take a flag for
//! each level, and one pass more.
//!
//! Definitions stand in `specs/Labels` (`pathmax_shape`), `specs/Rules` (`pathmax_rules`) and
//! `specs/PathMax` (`PathMaxSays`, `longest_pathmax`), the theorem in `specs/laws/PathMaxLaws`
//! (`pathmax_show`, `pathmax_met`, `pathmax_one_right`, `pathmax_fits`).
#![tactic(auto)]

mod comparing;
mod gathering;
mod glance;
mod in_memory;
mod kept_level;
mod levels;
mod marking;
mod outside;
mod pass;
mod pathmax;
mod reading;
mod scheme;

pub use levels::{PathMaxFormat, PathMaxLabel, PathMaxLevels};
pub use pathmax::PathMaxRules;
pub use pls_centroid::{CentroidLevel, CentroidList, centroid_levels};
pub use scheme::PathMax;
