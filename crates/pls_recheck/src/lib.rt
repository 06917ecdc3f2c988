//! Edits of a network with its labels, and rounds in which only the nodes that
//! an edit touched are judged again.
//!
//! An [`EditedNetwork`] holds a network, its labels and the verdicts of the last rounds, and is
//! seen as the record `Snapshot`. [`EditedNetwork::apply`] makes an [`Edit`] and touches the nodes
//! whose view it may change; [`EditedNetwork::round`] asks a [`Judge`] once for each touched node
//! and for no other. Where no node is touched, [`EditedNetwork::verdicts`] are those of a full
//! round. A [`Judge`] is lent to each: [`BenchJudge`] judges as a checker by a [`Bench`], which
//! counts the questions. A [`Recheck`] keeps its judge, and its verdicts are those of that judge. A
//! [`Monitor`] keeps a checker that remembers what each label says, and lends a bench to each
//! round.
//!
//! The edits of an input are read by `pls_edits`: [`scan_edits`] gives an [`EditsText`], whose list
//! is of [`EditLine`]s.
//!
//! Definitions stand in `specs/`: `Snapshot` has the snapshot and what it means that its verdicts
//! are current, `After` what an edit makes of it. What an edit makes of a network and its labels,
//! which nodes it touches and why it is refused is said in `specs/Edited` of `pls_edits`.
#![tactic(auto)]

mod applying;
mod asks;
mod bench;
mod bench_judge;
mod by_memory;
mod checker_at_place;
mod edited_network;
mod joining;
mod judge;
mod labelling;
mod monitor;
mod recheck;
mod remembering;
mod rounds;
mod tally;

pub use bench::Bench;
pub use bench_judge::BenchJudge;
pub use edited_network::EditedNetwork;
pub use judge::Judge;
pub use monitor::Monitor;
pub use pls_edits::{Edit, EditError, EditLine, EditsText, scan_edits};
pub use recheck::Recheck;
pub use tally::Tally;
