//! The watch part of an input: events of a round in which labels change, and looks at it.
//!
//! A [`WatchEvent`] is an event of a round of messages, or gives a node its next label. A
//! [`WatchLine`] is an event or asks for a look. `specs/WatchText` says how lists of them are
//! written, one a line: [`scan_watch`] passes one watch part without memory, or names its first
//! faulty line, and the [`WatchText`] that it gives lends the text, counts its lines, its looks and
//! the bits of its labels, and reads the lines ([`WatchText::list`]). A [`ReadWatch`] has them too,
//! where they were kept while the text was passed. A [`LineQueue`] gives them out one by one, and
//! their memory back.
#![tactic(auto)]

mod boxed_label;
mod line_queue;
mod watch_event;
mod watch_read;
mod watch_text;
mod watch_words;

pub use boxed_label::BoxedLabel;
pub use line_queue::LineQueue;
pub use pls_configuration::{MAX_LINES, MAX_ROUNDS};
pub use pls_streams::NoMemory;
pub use watch_event::{WatchEvent, WatchLine};
pub use watch_read::ReadWatch;
pub use watch_text::{WatchText, scan_watch};
pub use watch_words::WatchWord;
