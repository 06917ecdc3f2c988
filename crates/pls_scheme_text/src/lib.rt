//! Expressions of schemes as texts.
//!
//! [`read_expression`] reads the text of an expression of schemes, and [`print_expression`] writes
//! it (`specs/ExpressionText`: `expression_text`, by its cases). There is one grammar: inside of
//! `map` stand properties, elsewhere schemes. Proofs may cite `specs/laws/TextLaws`
//! (`one_expression`) and `proofs/Letters` (`first_letter`).
#![tactic(auto)]

mod expression_fronts;
mod fronts;
mod laws;
mod scheme_error;
mod scheme_text;

pub use laws::one_text;
pub use scheme_error::SchemeError;
pub use scheme_text::{print_expression, read_expression};
