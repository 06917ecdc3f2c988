//! A line of an edits part.

use crate::edit::Edit;

/// What a line of an edits part says.
#[derive(Drop)]
pub enum EditLine {
    /// An edit.
    Edit(Edit),
    /// `round`: the touched nodes are judged again.
    Round,
}
