//! Shortest-path trees: the property `spt`, how a node checks its distance against those of its
//! neighbours, and how a network is marked.
//!
//! [`Spt`] is the scheme, over any number code; [`SptRules`] what it states of its own, and
//! [`SptLabel`] what its labels say. What they say of the tree is checked by the rules of
//! `pls_pointer`'s trees. Weights may be 0, so it is the depth that shows that no chain of pointers
//! returns. Definitions stand in `specs/Spt` (`spt_rules`, `spt_says`, `spt_limits`), the theorem
//! in `specs/laws/SptLaws` (`spt_show`, `spt_met`, `spt_one_right`, `spt_fits`); what shortest-path
//! trees and weights of walks are stands in `pls_facts`.
#![tactic(auto)]

mod farther;
mod gathering;
mod spt;
mod spt_scheme;

pub use gathering::PortTally;
pub use spt::{Spt, SptLabel, SptRules};
