//! What the other crates speak of: the plain data of a network (`State`, `Port`, `NodePorts`,
//! `NodeRow`), the verdict at a node, the status of a run, why rows are no network, and, in
//! `specs/`, the definitions that several crates cite.
//!
//! `Configuration` says which lists of rows are networks and which refusal a list meets first.
//! `Walk` has edges, walks and what it means that edges join nodes.
//! Crates above give these types again under the names that their callers expect.
#![tactic(auto)]

mod limits;
mod refusal;
mod row;
mod status;
mod verdict;

pub use limits::{
    MAX_BITS, MAX_DEGREE, MAX_INPUT, MAX_LINES, MAX_NODES, MAX_NUM, MAX_PORTS, MAX_ROUNDS, MAX_WORD,
};
pub use refusal::BuildError;
pub use row::{NodePorts, NodeRow, Port, State};
pub use status::Status;
pub use verdict::Verdict;
