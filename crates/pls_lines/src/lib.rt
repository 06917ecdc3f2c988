//! Texts of lines: how a line is read, and how the parts of an input are, that are lists of lines.
//!
//! A format is a fact about lists of lines: those that are its texts. `specs/Fault` says which line
//! of a text is the first faulty one, and `specs/Frame` what each part of an input has: a heading,
//! a body of lines, and the line `end`.
//!
//! [`Lines`] stands before a line of a text, and lends what is left of it. A [`LineKind`] says how
//! its values are written, one a line, and reads the line at the front of a text, up to its line
//! feed: word by word ([`after_word`], [`number_before`], [`u32_before`], [`bytes_before`],
//! [`one_number`], [`two_numbers`]), so that no byte is looked at twice. [`next_of`] reads the next
//! line as such a value, and [`count_of`] passes as many as stand.
//!
//! A [`Part`] says which format it has and what is kept of its lines. [`scan`] reads the part that
//! stands next, and [`read_whole`] the part that a text is; they take no memory, and name the first
//! faulty line. [`Both`] is two parts, one behind the other, and so as many as there are: the whole
//! of an input is one part, and `read_whole` names the first faulty line of all.
//!
//! Most parts are lists of items. Such a part is written as its heading, its kind of item, and a
//! [`ListTally`]: which lists are allowed, and what is counted while they are passed. The rest is
//! here: the scan ([`ListText`], [`read_list`]), the items that the text says ([`next_item`]), the
//! lines that are kept of them ([`Keep`], [`ListText::list`]), the number of an item's line, and
//! the writer ([`write_list`]). [`keep_list`] keeps the lines while the part is passed, so that its
//! text is read once: a part that does so is [`ReadOnce`].
//!
//! A part of any items under a heading of one word needs no tally of its own: [`Count`] counts
//! them, and a [`HeadingWord`] is all that is said of the heading.
//!
//! `specs/Worded` is for kinds of line that are told by their words; `specs/laws` has its laws,
//! which the laws of a part are made of.
#![tactic(auto)]

mod both;
mod counted;
mod line_kind;
mod lines;
mod list_read;
mod list_tally;
mod list_text;
mod list_write;
mod number_lines;
mod numbers;
mod part;
mod words;

pub use both::Both;
pub use counted::{BareHeading, Count, HeadingWord};
pub use line_kind::{LineKind, count_of, next_of};
pub use lines::Lines;
pub use list_read::keep_list;
pub use list_tally::{Keep, ListTally};
pub use list_text::{ListText, next_item, read_list};
pub use list_write::{WriteLine, write_list};
pub use number_lines::{one_number, two_numbers};
pub use numbers::{number_before, u32_before};
pub use part::{Part, ReadOnce, read_whole, scan};
pub use pls_streams::NoMemory;
pub use words::{after_byte, after_line, after_word, bytes_before, is_same};
