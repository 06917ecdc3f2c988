//! Pointers that make a tree or a forest: the properties `tree` and `forest`, how a node checks its
//! depth against that of the node it points at, and how a network is marked.
//!
//! [`Tree`] and [`Forest`] are the schemes, over any number code; [`TreeRules`] and [`ForestRules`]
//! what each states of its own, [`TreeLabel`] and [`ForestLabel`] what their labels say. Definitions
//! stand in `specs/`, one file a scheme (`tree_rules`, `tree_says`, `tree_limits`, and so for
//! forests), the theorems in `specs/laws/` (`tree_show`, `tree_met`, `tree_one_right`,
//! `tree_fits`); what trees and chains of pointers are stands in `pls_facts`.
#![tactic(auto)]

mod deeper;
mod forest;
mod forest_scheme;
mod tree;
mod tree_scheme;

pub use forest::{Forest, ForestLabel, ForestRules};
pub use tree::{Tree, TreeLabel, TreeRules};
pub use tree_scheme::root_and_depths;
