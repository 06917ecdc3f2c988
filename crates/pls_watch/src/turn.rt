//! What happens next, but for the bits of new labels.

use pls_schedule::Event;

/// What happens next, but for the bits of new labels.
#[derive(Clone, Copy, Debug, PartialEq, Eq)]
pub enum Turn {
    /// An event of a round of messages.
    Plain(Event),
    /// The node of this identity gets the next version of its label.
    Relabel(u32),
}
