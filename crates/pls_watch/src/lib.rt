//! Labels that change while messages are under way: each label has versions, an emit carries the
//! one that its node has then, and a node holds the greatest that it has heard.
//!
//! A [`Watch`] is seen as its network, the labels at the start, what it takes, and the list of the
//! [`WatchEvent`]s that it has taken (`specs/Watching`). What a node holds, which of it is stale
//! and what becomes of the node are said over that list (`specs/Versions`, `specs/Labelled`), in
//! the words of the schedule of `pls_sim`. [`Watch::start`] takes all memory of the steps. A
//! [`Lookout`] is a watch with its looks, at which those nodes alone are judged again that know
//! something else than at the look before.
#![tactic(auto)]

mod change;
mod giving;
mod known_labels;
mod label_version;
mod lookout;
mod looks;
mod port_state;
mod renewing;
mod stock;
mod turn;
mod version_list;
mod versions;
mod watch;

pub use lookout::Lookout;
pub use pls_report::{LookRow, LookRows};
pub use pls_sim::{EventError, Outcome, PortBuffer, PortNumbers};
pub use pls_streams::NoMemory;
pub use pls_watch_part::{BoxedLabel, WatchEvent};
pub use turn::Turn;
pub use watch::Watch;
