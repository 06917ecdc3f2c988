//! The part of an input that states a rule set.
//!
//! A rules part has a line for each field, and then one for each rule. `specs/RulesText` says how
//! what a part says is written (`rules_text`), by which of its lines it is refused
//! (`rules_refusal`), and which rule set it says (`set_said`); `specs/RulesScan` how the part
//! stands among the lines of an input. [`scan_rules`] passes one rules part without memory, or
//! names its first faulty line, and the [`RulesText`] that it gives lends the text and reads the
//! set ([`RulesText::build`]). [`read_rules`] reads a text that is one part, and [`print_rules`]
//! writes one; `specs/Printable` says which sets are read back from what is printed of them.
//! [`laws`] has what else holds of such texts.
#![tactic(auto)]

mod field_line;
pub mod laws;
mod rule_adding;
mod rule_lines;
mod rule_words;
mod rules_print;
mod rules_read;
mod rules_tally;
mod rules_text;
mod word_before;

pub use pls_streams::NoMemory;
pub use rules_print::print_rules;
pub use rules_read::read_rules;
pub use rules_tally::RulesWord;
pub use rules_text::{RulesText, scan_rules};
