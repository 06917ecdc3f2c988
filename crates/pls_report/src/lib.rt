//! Reports: a line for each node with its outcome, and then how many nodes reject.
//!
//! [`write_report`] writes the text of a report (`specs/Report`) into a sink, in pieces of a
//! few KiB and without memory, with a line for each component ([`ComponentRow`], `specs/ComponentLines`)
//! where there are several. [`rejecting`] and [`waiting`] count the nodes that it closes with, and
//! [`all_accept`] tells whether there is none. [`write_round`] writes the report of a round in
//! which touched nodes were judged again. [`write_look`] writes what is seen at a look at a round
//! in which labels change (`specs/Look`), of which a [`LookRow`] is what is shown of one node and
//! [`LookRows`] are those of all; they can keep looks, which [`write_kept`] writes later.
//! [`LookRows::is_well`] tells whether all accept there on the newest labels.
#![tactic(auto)]

mod component_lines;
mod component_row;
mod counting;
mod decided;
mod kept_looks;
mod line_kind;
mod look;
mod look_row;
mod look_rows;
mod node_line;
mod patches;
mod pieces;
mod report;
mod round;

pub use component_row::ComponentRow;
pub use counting::{all_accept, all_verdicts_accept, rejecting, rejects, waiting, waits};
pub use look::{write_kept, write_look};
pub use look_row::LookRow;
pub use look_rows::LookRows;
pub use report::write_report;
pub use round::write_round;
