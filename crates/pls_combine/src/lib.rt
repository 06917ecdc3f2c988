//! Expressions as schemes.
//!
//! [`AnyScheme`] is an expression of names and of `map(P)`, joined by `and` and `or`, as a scheme
//! (`specs/Expression`: `judge_of`, `IsMarked`, `longest_of`, by its cases; its property is
//! `HasProperty` of `pls_expressions`). Code above goes through this type. A round of an expression
//! parts all labels once and judges the parts each in a round of its own.
//! [`AnyScheme::with_checker`] hands a checker that remembers labels to whoever asks, and
//! [`AnyScheme::in_code`] changes the number code, and [`AnyScheme::convert_label`] that of a label
//! (`specs/Converted`); [`AnyScheme::convert_labels`] that of all labels, and reads no map again
//! that the label before has too.
//!
//! Proofs may cite `specs/laws/ExpressionLaws`, and of `proofs/` how long labels are (`Bounds`).
#![tactic(auto)]

mod any_scheme;
mod converting;
mod laws;
mod remembering;
mod rounds;
mod scheme_tree;
mod with_checker;

pub use any_scheme::{AnyScheme, SchemeTree};
pub use laws::{has_short_bound, is_small};
pub use pls_expressions::AnyProperty;
