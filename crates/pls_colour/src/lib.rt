//! Networks with a two-colouring and networks without cycle: the properties `bipartite` and
//! `acyclic`, how a node checks its label, and how a network is marked, by the levels of its nodes.
//!
//! [`Bipartite`] and [`Acyclic`] are the schemes; [`BipartiteRules`] and [`AcyclicRules`] what each
//! states of its own, [`ColourLabel`] and [`AcyclicLabel`] what their labels say. Definitions stand
//! in `specs/`, one file a scheme (`acyclic_rules`, `acyclic_says`, `acyclic_limits`, and so for
//! bipartite), the theorems in `specs/laws/` (`acyclic_show`, `acyclic_met`, `acyclic_one_right`,
//! `acyclic_fits`); what cycles and two-colourings are stands in `pls_facts`.
#![tactic(auto)]

mod acyclic;
mod acyclic_scheme;
mod bipartite;
mod bipartite_scheme;
mod colour_format;
mod level_labels;

pub use acyclic::{Acyclic, AcyclicLabel, AcyclicRules, AcyclicTally};
pub use bipartite::{Bipartite, BipartiteRules};
pub use colour_format::{ColourFormat, ColourLabel};
