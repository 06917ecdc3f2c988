//! One leader, and the number of nodes: the properties `leader` and `count`, how a node checks
//! what its label says of a root against what its neighbours' labels say, and how a network is
//! marked.
//!
//! [`Leader`] and [`Count`] are the schemes, over any number code; [`LeaderRules`] and
//! [`CountRules`] what each states of its own, [`LeaderLabel`] and [`CountLabel`] what their labels
//! say. Definitions stand in `specs/`, one file a scheme (`leader_rules`, `leader_says`,
//! `leader_limits`, and so for count), the theorems in `specs/laws/`; what a leader is, depths that
//! lead to a root, and sums along a tree stand in `pls_facts`.
#![tactic(auto)]

mod count;
mod count_scheme;
mod leader;
mod leader_scheme;
mod parents;
mod rooted;

pub use count::{Count, CountLabel, CountRules, CountTally};
pub use leader::{Leader, LeaderLabel, LeaderRules, LeaderTally};
pub use leader_scheme::IsLeader;
