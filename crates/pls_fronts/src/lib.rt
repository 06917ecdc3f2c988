//! What stands at the front of a text, for readers of expressions.
//!
//! [`after`] takes a word off the front, [`number_front`] a decimal, and [`letters_front`] letters;
//! each lends what follows, and none takes memory. [`is_deeper`] tells whether parentheses stand
//! deeper than allowed. What they find is defined in `specs/Front`, `specs/NumberFront`,
//! `specs/LetterFront` and `specs/Depth`; proofs may cite `specs/laws`, by which each finds what
//! stands there and no more.
#![tactic(auto)]

mod depths;
mod digits;
mod letters;
mod words;

pub use depths::is_deeper;
pub use digits::number_front;
pub use letters::letters_front;
pub use words::after;
