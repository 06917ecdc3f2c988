//! Properties of `pls_facts` as functions from rows to a truth value, for judgements that are
//! computed.
//!
//! Each test stands in `specs/`, in the words of its property: `MarkTests` has those of marks and
//! numbers (`leader_test`, `count_test`), `SearchTests` those that try all lists of a kind
//! (`bipartite_test`, `acyclic_test`, `mst_test`), `PointerTests` those that follow pointers
//! (`forest_test`, `tree_test`, `spt_test`). The laws in `specs/laws/`, and a function for
//! each of them, say that a test gives true exactly where its property holds of a network. A test
//! is a definition and never runs, so it may try all there is to try.
#![tactic(auto)]

mod pointer_laws;
mod search_laws;

pub use pointer_laws::{forest_is_tested, spt_is_tested, tree_is_tested};
pub use search_laws::{
    acyclic_is_tested, bipartite_is_tested, count_is_tested, leader_is_tested, mst_is_tested,
};
