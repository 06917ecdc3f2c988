//! Rule sets as code for a small machine, and as verifiers.
//!
//! [`compile`] makes the [`Code`] of a set's rules, which is `code_of_rules` of them and nothing
//! else; [`listing`] is the code as a text, and [`Machine`] runs it, one [`Instr`] a step. A
//! machine is never stuck on the code of a set that makes sense: 40 numbers of 128 bits and 2 ports
//! are room for all of them. [`RuleChecker`] is a set as a [`Checker`](pls_scheme::Checker): it
//! reads labels by the set's fields and runs the code at each node. It judges a view without
//! memory; a round reads all labels into a table first.
//!
//! Definitions stand in `specs/`: `RuleMeaning` has what a set means (`meaning`), `Code` the code
//! of expressions, `RuleMachine` what a step does, `Listing` the text, `ReadLabels` what a node
//! reads. What rule sets are stands in `pls_rules`.
#![tactic(auto)]

mod code;
mod emit;
mod field_table;
mod fields;
mod in_network;
mod in_view;
mod instr;
mod listing_text;
mod machine;
mod machine_step;
mod operators;
mod rule_checker;
mod run;
mod sees;
mod step;

pub use code::{Code, compile};
pub use instr::Instr;
pub use listing_text::listing;
pub use machine::Machine;
pub use rule_checker::RuleChecker;
