//! Spanning trees of least weight: the property `mst`, how a node checks the fragments that it is
//! in and the edges that they chose, and how a network is marked.
//!
//! [`Mst`] is the scheme, over any number code: a verifier that takes no memory, the property, a
//! marker, and a layout of labels. [`MstRules`] is what it states of its own, [`MstLabel`] what its
//! labels say, [`MstFormat`] how they are written: they are those of `pls_levels` with the levels
//! of `pls_boruvka` ([`MstLevels`]). A label may be as long as memory allows, so it is judged where
//! it lies: it is looked at once, from front to back, up to the first code that is missing.
//! [`MstGlance`] keeps what stands in front of its levels and the first of them, as far as their
//! numbers fit in 32 bits ([`KeptLevel`]); those behind, where there are any, are read once more
//! beside each neighbour's. Definitions stand in `specs/Labels` (`mst_shape`), `specs/Rules`
//! (`mst_rules`) and `specs/Mst` (`MstSays`, `longest_mst`), the theorem in `specs/laws/MstLaws`
//! (`mst_show`, `mst_met`, `mst_one_right`, `mst_fits`); what spanning trees of least weight are
//! stands in `pls_facts`.
#![tactic(auto)]

mod comparing;
mod gathering;
mod glance;
mod kept_level;
mod levels;
mod mst;
mod mst_scheme;
mod reading;

pub use comparing::{LevelComparison, PortEdge};
pub use gathering::PortTally;
pub use glance::{FRONT, MstGlance};
pub use kept_level::KeptLevel;
pub use levels::{MstFormat, MstLabel, MstLevels};
pub use mst::{Mst, MstRules};
pub use pls_boruvka::{Level, LevelList};
