//! The text of a network: for each node its line, and behind it a line for each of its ports.
//!
//! `specs/NetworkText` says how a network is written. [`scan_network`] passes one network part
//! from [`Lines`] and without memory, or names its first faulty line; the [`NetworkText`] that it
//! gives lends the text, counts its nodes and ports, and builds their network. [`read_network`] and
//! [`write_network`] are inverse to each other ([`read_written`], [`write_read`]). Laws: a text
//! fixes its network ([`one_network`]), and it has one first faulty line at most
//! ([`one_first_fault`]), none where it is the text of a network ([`no_fault`]).
//!
//! [`NodeLine`] is the line of a node, and [`read_state`] and [`pointer_then`] read its words, for
//! other parts that state the same.
#![tactic(auto)]

mod laws;
mod network_build;
mod network_file;
mod network_line;
mod network_read;
mod network_rows;
mod network_scan;
mod network_text;
mod network_write;
mod round_trips;

pub use laws::{no_fault, one_first_fault, one_network};
pub use network_file::read_network;
pub use network_line::{NodeLine, pointer_then, read_state};
pub use network_read::{ReadNetwork, pass_network};
pub use network_scan::scan_network;
pub use network_text::NetworkText;
pub use network_write::write_network;
pub use pls_lines::Lines;
pub use pls_streams::NoMemory;
pub use round_trips::{read_written, write_read};
