//! The words of a command line, read with `clap`.
//!
//! [`read_words`] answers a command, the word behind it and the flag among them, or that the words
//! are of no such form; `specs/Words` says which. What the words name is for the
//! layer above. No other crate uses `clap`.
#![tactic(auto)]

mod command_words;
mod reading;

pub use command_words::{CommandWords, Flag};
pub use reading::read_words;
