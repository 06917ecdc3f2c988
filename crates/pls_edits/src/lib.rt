//! Edits of a network and its labels, and the part of an input that states them.
//!
//! An [`Edit`] changes a state, a weight, an edge, a node or a label. `specs/Edited` says what each
//! makes of a network and its labels (`edited`, `relabelled`), which nodes it touches (`touches`),
//! and why it is refused (`edit_refusal`).
//!
//! An [`EditLine`] is an edit or asks for a round. `specs/EditsText` says how lists of them are
//! written, one a line: [`scan_edits`] passes one edits part without memory, or names its first
//! faulty line, and the [`EditsText`] that it gives lends the text, counts its lines and rounds,
//! and reads them ([`EditsText::list`]). A [`ReadEdits`] has them too, where they were kept while
//! the text was passed.
#![tactic(auto)]

mod edit;
mod edit_line;
mod edit_words;
mod edits_read;
mod edits_text;
mod number_words;

pub use edit::Edit;
pub use edit_line::EditLine;
pub use edit_words::EditsWord;
pub use edits_read::ReadEdits;
pub use edits_text::{EditsText, scan_edits};
pub use pls_configuration::{MAX_LINES, MAX_ROUNDS};
pub use pls_graph_edits::EditError;
pub use pls_streams::NoMemory;
