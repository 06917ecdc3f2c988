//! The library in one name. A crate that names `pls` alone has what a program wants of the crates
//! below, and its clauses cite their definitions by `Rattle.pls.specs`.
//!
//! A [`Network`] is made of rows: [`network_of`] takes any rows, and says why some are none. A
//! scheme has a property of networks, and labels that prove it: [`Tree`] that the pointers are a
//! spanning tree, [`Bipartite`] that there is a two-colouring, and so on. [`proving_labels`] gives
//! such labels, or `None` exactly where a network is not connected or lacks the property. A node
//! answers by what it sees, its [`View`]: itself, its label and its neighbours' labels, and no
//! more. [`verdicts_by`] gives the answers of all nodes, and [`rule_text`] the rule that fails, in
//! words. Where [`labels_prove`] answers true the network has the property, whoever made the
//! labels; where it answers false nothing is known.
//!
//! Each call answers want of memory as an error, and has no other error but those that it names.
//! Labels and states are those that the caller gives: nothing here says that they stay so while
//! messages are under way. [`Sim`] and [`Watch`] play such rounds, and [`Monitor`] judges again
//! what an edit touches.
#![tactic(auto)]

mod certificates;
mod label_values;
mod networks;
mod rule_texts;
mod schemes;
mod verdicts;

// Networks, and the searches in them.
pub use networks::{NetworkError, is_connected, network_of, plain_row};
pub use pls_configuration::{MAX_BITS, MAX_DEGREE, MAX_NODES, MAX_NUM, MAX_PORTS};
pub use pls_graph::{
    BuildError, Network, NetworkBuilder, NodePorts, NodeRow, Port, Size, State, levels, node_apart,
};
pub use pls_streams::NoMemory;

// Labels, and what a node sees of them.
pub use label_values::labels_of;
pub use pls_bits::{BitBuf, Bits, CodeName, Cursor, Delta, Gamma, NumCode, from_hex};
pub use pls_labels::{LabelStore, Labels, LentLabels, PortView, View};
pub use smallvec::SmallVec;

// Verdicts, and what follows from them.
pub use certificates::{labels_prove, proving_labels};
pub use pls_configuration::Verdict;
pub use pls_scheme::{
    Checker, Property, Remembers, Scheme, are_accepted, certifies, is_scheme, some_node_rejects,
};
pub use pls_streams::Steps;
pub use rule_texts::{map_rules, rejections_have_texts, rule_text, rules_of};
pub use verdicts::{verdict_at, verdicts_by};

// Schemes, their labels and their names.
pub use pls_colour::{AcyclicLabel, ColourLabel};
pub use pls_combine::AnyScheme;
pub use pls_diameter_bridges::{Bridgeless, Diameter};
pub use pls_distance::SptLabel;
pub use pls_expressions::{ExpressionTree, LentProperty};
pub use pls_leader::{CountLabel, LeaderLabel};
pub use pls_mst::MstLabel;
pub use pls_names::{SchemeByName, SchemeName, name_of};
pub use pls_pairs::{Both, EitherLabel, OneOf, PairLabel};
pub use pls_pathmax::PathMaxLabel;
pub use pls_pointer::{ForestLabel, TreeLabel};
pub use pls_scheme_text::{SchemeError, print_expression, read_expression};
pub use pls_universal::{MapLabel, PropertyTest};
pub use schemes::{Acyclic, Bipartite, Count, Forest, Leader, MapOf, Mst, PathMax, Spt, Tree};

// Networks that are judged again while they are edited.
pub use pls_edits::Edit;
pub use pls_graph_edits::EditError;
pub use pls_recheck::{Bench, BenchJudge, EditedNetwork, Judge, Monitor, Recheck, Tally};

// Rounds of messages.
pub use pls_schedule::Event;
pub use pls_sim::{EventError, Outcome, PortBuffer, PortNumbers, Sim};
pub use pls_watch::{LookRow, LookRows, Lookout, Turn, Watch};
pub use pls_watch_part::{BoxedLabel, WatchEvent};

// Rule sets, which judge as a text says.
pub use pls_compile::RuleChecker;
pub use pls_rules::RuleSet;
pub use pls_rules_part::{print_rules, read_rules};
pub use pls_streams::TextError;
