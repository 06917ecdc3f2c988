//! The edits of a network: six functions, each of which changes a [`Network`] in place, or says by
//! an [`EditError`] why not and leaves it as it was. What an edit makes of the rows, and its first
//! refusal, stand in `specs/Edits`. After [`note_places`] edits find identities without a search.
//!
//! Edits write the fields of a network, which `pls_graph` exports for this crate alone.
//!
//! [`Network`]: pls_graph::Network
#![tactic(auto)]

mod edit_error;
mod editing;
mod gap_seeking;
mod gaps;
mod hinting;
mod ranges;
mod shaping;

pub use edit_error::EditError;
pub use editing::{join, leave, link, set_state, set_weight, unlink};
pub use hinting::note_places;
