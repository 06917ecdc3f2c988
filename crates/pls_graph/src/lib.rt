//! Networks. A [`Network`] is seen as the list of its rows and holds that they are a network:
//! [`NetworkBuilder::build`] names why rows are none, and a caller needs no premise afterwards,
//! since `valid` of [`Network::len`] says what holds. Places count the rows from 0; identities rise
//! with them. All ports stand in one vector, and beside each the place of its neighbour: a search
//! goes by [`Network::places`] and looks no identity up. Fields and types that are `#[doc(hidden)]
//! pub` are for `pls_graph_edits` alone, which changes a network in place.
//!
//! [`Network::size`] tells how large a network is, [`levels`] the fewest edges from a node to each,
//! and [`node_apart`], by the levels from the first node, whether the edges join all nodes.
//!
//! Proofs above may cite `proofs/Placed` (rows and ports are found by their identities, and each
//! port has a port back), `proofs/Beside` (neighbours by their places), `proofs/Valid` (one fact
//! for each refusal), `proofs/Adjacent` (nodes are adjacent exactly where a port names one),
//! `proofs/Joined` (walks compose and turn), and on lists `proofs/Members` and `proofs/Finds`.
#![tactic(auto)]

mod breadth;
mod builder;
mod guesses;
mod hints;
mod incoming;
mod index;
mod marking;
mod network;
mod ranges;
mod reach;
mod refusal;
mod seeking;
mod size;
mod soundness;
mod table;

pub use breadth::levels;
pub use builder::NetworkBuilder;
#[doc(hidden)]
pub use hints::Hints;
pub use network::Network;
pub use pls_configuration::{BuildError, NodePorts, NodeRow, Port, State};
pub use reach::{first_apart, node_apart};
pub use size::Size;
#[doc(hidden)]
pub use table::{Node, Table};
