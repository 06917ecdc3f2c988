//! Parts of an input whose last line closes them: lists of lines of which some close what stands
//! before them, as the lines `look` and `round` do, and of which the last one is such a line.
//!
//! A [`ClosingLine`] is a kind of line that says which of its lines close. [`ClosingTally`] is the
//! list of a part of them under a heading of one word; it counts the lines, those that close, and
//! the bits of the labels that lines give, without memory, and [`check_limits`] tries the counts.
//! What an [`OwnLine`] says can be kept while its part is passed. `specs/Closing` says which lists
//! close.
#![tactic(auto)]

mod closing_line;
mod closing_tally;
mod limits;

pub use closing_line::{ClosingLine, OwnLine};
pub use closing_tally::ClosingTally;
pub use limits::check_limits;
pub use pls_configuration::{MAX_LINES, MAX_ROUNDS};
pub use pls_streams::{Quantity, TextError};
