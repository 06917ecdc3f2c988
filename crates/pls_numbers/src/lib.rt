//! Labels that are lists of numbers: which bits spell them, what bits say, and the same label in
//! another number code.
#![tactic(auto)]

mod fields;
mod format;
mod kind;
mod numbers;
mod numbers_format;
mod recoding;
mod writing;

pub use fields::{FieldValues, Fields, read_field};
pub use format::{Format, ReadsInPlace};
pub use kind::FieldKind;
pub use numbers::Numbers;
pub use numbers_format::{NumbersFormat, OfNumbers, read_numbers};
pub use recoding::recode;
pub use writing::append_numbers;
