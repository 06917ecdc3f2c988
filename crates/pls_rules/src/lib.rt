//! The rule language: rule sets, of which each node judges its view. A set names the fields of a
//! label and states rules on what the node reads in its own label, in those of its neighbours, and
//! at its ports.
//!
//! [`RuleSet`] is a set as it is held: [`Field`]s, and a [`BoolExpr`] for each rule, whose numbers
//! are [`NumExpr`]s. Definitions stand in `specs/`: `Formula` has the trees of the language apart
//! from how they are held, `RuleSet` which sets make sense (`AreRules`), `HeldTrees` the set that
//! is held (`set_of`). What a set means stands in `pls_compile`.
#![tactic(auto)]

mod expr;
mod field;
mod rule_set;

pub use expr::{BoolExpr, NumExpr};
pub use field::{Field, MAX_LETTERS, Name};
pub use pls_numbers::FieldKind;
pub use rule_set::RuleSet;
