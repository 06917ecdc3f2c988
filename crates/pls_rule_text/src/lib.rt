//! Rules as texts.
//!
//! [`is_rule_text`] tells the texts of rules (`specs/RuleText`: `IsRuleText`), [`read_rule`] reads
//! the rule of such a text over the fields that it names, and [`print_rule`] writes one.
//! `specs/FormulaText` has the texts by their writer, and `specs/RuleText` what a rule says and
//! when it makes sense. Proofs may cite `specs/laws/RuleLaws` (what a text says, `rule_said`, and
//! that rules with one text are one) and `specs/laws/PrintLaws` (what is printed says the same
//! rule).
#![tactic(auto)]

mod atoms;
mod ends;
mod laws;
mod openings;
mod print;
mod rule_error;
mod rule_text;
mod sense;
mod trees;

pub use laws::{one_rule, printed_rule};
pub use print::print_rule;
pub use rule_error::RuleError;
pub use rule_text::{is_rule_text, read_rule};
